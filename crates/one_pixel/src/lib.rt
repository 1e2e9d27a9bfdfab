// By how much one pixel of another colour moves the number of regions and that of unit edges. There is no code here.
#![tactic(auto)]
