// Demand 3 is a theorem about the rules: specs/Claim.antt states it, proofs/ proves it.
#![tactic(auto)]
