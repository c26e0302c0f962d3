// What the sum over a walk of x times the change of y means. There is no code here.
#![tactic(auto)]
