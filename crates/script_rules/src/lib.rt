// Scripts: the types that their rules, the code and every promise share. What a script means is in specs/.
#![tactic(auto)]

pub mod line;
pub mod replayed;
