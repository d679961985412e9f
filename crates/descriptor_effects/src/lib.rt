// What a granted call does to open files, descriptors and processes: the decision's numbers are written, nothing is decided or refused here.
#![tactic(auto)]

pub mod open_files;
pub mod processes;
