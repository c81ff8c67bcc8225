// What a line's messages write on a page and read of it, by region: two lines' writes in either order. Laws only.
#![tactic(auto)]
