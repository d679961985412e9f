// The calls that move bytes and offsets: what they are answered, on the tables as they are. Nothing is written here.
#![tactic(auto)]

mod open_files;
pub mod read;
pub mod seek;
pub mod write;
