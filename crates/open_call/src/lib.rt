// Open: what it is answered, on the tables as they are. Nothing is written here.
#![tactic(auto)]

pub mod open;
