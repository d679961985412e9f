// A script's output: an answer is written.
#![tactic(auto)]

pub mod answers;
