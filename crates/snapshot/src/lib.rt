// Snapshots in the form of source document 002: definitions and laws alone.
#![tactic(auto)]
