// What a call is answered, on the lent tables as they are: refused, or granted with every number that will be written. Nothing is written here.
#![tactic(auto)]

pub mod decide;
mod form;
mod formed;
