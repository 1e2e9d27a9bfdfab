// Outlines that are given, and the only image that can have them. There is no code here.
#![tactic(auto)]
