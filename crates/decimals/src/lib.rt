// Numbers in decimal digits: theory only.
#![tactic(auto)]
