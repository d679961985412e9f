// What is free, and what is held: slots, open files, processes and descriptors; what becomes of a descriptor that is emptied or shared.
#![tactic(auto)]

pub mod free;
pub mod held;
pub mod last;
pub mod release;
pub mod share;
pub mod used;
