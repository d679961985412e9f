// A decision's effect is carried out on the lent tables. Nothing is refused here.
#![tactic(auto)]

pub mod carry;
