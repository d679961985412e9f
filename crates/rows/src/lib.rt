// Whole rows and entries stored in the tables.
#![tactic(auto)]

pub mod rows;
