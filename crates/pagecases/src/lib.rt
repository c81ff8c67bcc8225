// Rows on pages: crate `page`, the query of T-06, the orders of T-13. Nothing runs here.
#![tactic(auto)]
