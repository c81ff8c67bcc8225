// The reviewer's cases: documents 01 and 02 by example, computed row by row, and carried over to the book by demand 3. Rows only.
#![tactic(auto)]
