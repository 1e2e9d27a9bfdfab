// Laws of lists and numbers that know nothing of images. There is no code here.
#![tactic(auto)]
