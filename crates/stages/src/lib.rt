// The stages of a call, one at a time.
#![tactic(auto)]

pub mod call;
