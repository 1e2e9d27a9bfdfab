// The blocks of a region linked in list order, and where along them outlines start: theory only.
#![tactic(auto)]
