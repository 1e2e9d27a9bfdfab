// The 4-connected regions of an image, their numbers, and the walk over the blocks that finds them. There is no code here.
#![tactic(auto)]
