// The dials of document 01 as one table under one theorem, over the definitions that the contracts cite. There is no code here.
#![tactic(auto)]
