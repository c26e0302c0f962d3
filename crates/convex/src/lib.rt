// What a convex room is, and what its call promises. There is no code here.
#![tactic(auto)]
