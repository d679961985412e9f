// The types that the rules, the code and every promise share. What the store does is in specs/.
#![tactic(auto)]

pub mod answer;
pub mod decision;
pub mod ids;
pub mod refusal;
pub mod request;
pub mod rights;
