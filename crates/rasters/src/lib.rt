// A raster to blocks and blocks to a raster, one after the other. There is no code here.
#![tactic(auto)]
