// What every room says about lists, options, tables of numbers and searches. Definitions and laws; there is no code here.
#![tactic(auto)]
