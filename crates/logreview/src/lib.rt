// Demand 3 about a log that is replayed: what is written is what the reviewer answers. Laws only.
#![tactic(auto)]
