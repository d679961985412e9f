// The store: one call on the lent tables.
#![tactic(auto)]

pub mod call;
