// What a call answers, and the reader's buffer.
#![tactic(auto)]

pub mod answer;
