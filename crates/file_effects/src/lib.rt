// What a granted call does to files and directories: the decision's numbers are written, nothing is decided or refused here.
#![tactic(auto)]

pub mod files;
pub mod names;
