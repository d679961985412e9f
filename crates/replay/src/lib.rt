// Scripts replayed on the lent tables.
#![tactic(auto)]

pub mod run;
