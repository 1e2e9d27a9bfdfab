// The pixels done after any number of blocks are a staircase, and its border is one path. There is no code here.
#![tactic(auto)]
