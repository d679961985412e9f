// "Sound": the test that runs before every call, or once before a script's, of the store and of the policy apart.
#![tactic(auto)]

mod bytes;
mod dirents;
mod files;
mod links;
mod open_files;
pub mod policy;
mod processes;
mod slots;
pub mod store;
mod tree;
