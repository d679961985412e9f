// A script's input: a block is read.
#![tactic(auto)]

pub mod blocks;
pub mod requests;
