// The convex hull of a walk. There is no code here.
#![tactic(auto)]
