// What block lists mean: painting, section 2's quadtree, the number of a list, staircase and border. There is no code here.
#![tactic(auto)]
