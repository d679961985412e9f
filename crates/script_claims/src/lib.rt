// The theorems are about the rules alone: see specs/Claims.antt.
#![tactic(auto)]
