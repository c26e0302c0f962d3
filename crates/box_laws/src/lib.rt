// The box of a walk, and the places of its corners in it: laws for whatever keeps something by corner. There is no code here.
#![tactic(auto)]
