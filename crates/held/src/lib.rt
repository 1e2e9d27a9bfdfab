// No code: the cycles that an owner, an end and a corner list hold.
#![tactic(auto)]
