// Steps on a bounded set that can be undone, and their orbits: laws over plain numbers. There is no code here.
#![tactic(auto)]
