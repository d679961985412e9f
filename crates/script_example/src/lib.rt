// R-1's example is a theorem about the rules: specs/Example.antt states it, proofs/ proves it.
#![tactic(auto)]
