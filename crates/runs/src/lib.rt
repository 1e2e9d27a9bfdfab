// An image in pieces of one colour each: the runs they make, each run as its squares, together the quadtree. There is no code here.
#![tactic(auto)]
