// The best entries of a symbol and their publication: definitions and laws alone.
#![tactic(auto)]
