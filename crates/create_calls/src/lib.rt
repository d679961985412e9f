// The calls that make names: what they are answered, on the tables as they are. Nothing is written here.
#![tactic(auto)]

pub mod create;
pub mod link;
pub mod symlink;
