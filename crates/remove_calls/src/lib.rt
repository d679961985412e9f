// The calls that remove names: what they are answered, on the tables as they are. Nothing is written here.
#![tactic(auto)]

pub mod remove;
pub mod unlink;
