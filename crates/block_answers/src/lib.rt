// What a writer of a block list answers, and what it leaves in the three lists that it is lent. There is no code here.
#![tactic(auto)]
