// Demand 3 of a script's runs is a theorem about the rules: specs/Claim.antt states it, proofs/ proves it.
#![tactic(auto)]
