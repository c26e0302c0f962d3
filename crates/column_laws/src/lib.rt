// The columns of a walk: mathematics. There is no code here.
#![tactic(auto)]
