// What the execution reviewer works out, and the theorem that the book agrees. Definitions and laws only.
#![tactic(auto)]
