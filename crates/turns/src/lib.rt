// Openings and turns one after the other: what a caller knows of them. There is no code here.
#![tactic(auto)]
