// Rights, by the bits and by the labels.
#![tactic(auto)]

pub mod rights;
