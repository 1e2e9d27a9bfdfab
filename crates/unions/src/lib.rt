// Classes that pairs of numbers make: representatives, roots of a list of parents, numbers by counting. There is no code here.
#![tactic(auto)]
