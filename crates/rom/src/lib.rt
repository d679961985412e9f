// The factory part, and the files as the rules see them: those of the store, and the part's.
#![tactic(auto)]

pub mod part;
pub mod seen;
