// What the outlines of regions are: unit sides, the rule of steps, cycles, starts, corners, areas and their listing. There is no code here.
#![tactic(auto)]
