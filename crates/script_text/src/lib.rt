// A script's text: lines, numbers and hex are read.
#![tactic(auto)]

pub mod hex;
pub mod lines;
pub mod numbers;
