// Forests of numbers by their parents, the orders with each child before its parent, and the least of them: theory only.
#![tactic(auto)]
