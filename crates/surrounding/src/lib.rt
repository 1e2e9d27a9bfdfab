// Which regions surround which, and orders of regions from the inside out. There is no code here.
#![tactic(auto)]
