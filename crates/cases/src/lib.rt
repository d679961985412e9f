// The P cases are theorems about the rules: see specs/.
#![tactic(auto)]
