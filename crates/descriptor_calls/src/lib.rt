// Close, duplicate and fork: what they are answered, on the tables as they are. Nothing is written here.
#![tactic(auto)]

pub mod close;
pub mod duplicate;
pub mod fork;
