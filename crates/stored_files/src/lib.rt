// Files in block order, and the same files with their samples put into rows. There is no code here.
#![tactic(auto)]
