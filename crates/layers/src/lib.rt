// Any number of block lists laid over one another. There is no code here.
#![tactic(auto)]
