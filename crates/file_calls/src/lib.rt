// The calls on a file that a path names: what they are answered, on the tables as they are. Nothing is written here.
#![tactic(auto)]

pub mod change_bits;
pub mod execute;
pub mod list;
pub mod read_link;
pub mod stat;
