// Theorems alone: the runs of specs/, computed.
#![tactic(auto)]
