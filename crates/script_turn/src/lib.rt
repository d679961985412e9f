// One block of a script, served on the lent tables.
#![tactic(auto)]

pub mod turn;
