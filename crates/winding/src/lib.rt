// How often a closed walk winds around a pixel, and the signs and sums of the areas of outlines: theory only.
#![tactic(auto)]
