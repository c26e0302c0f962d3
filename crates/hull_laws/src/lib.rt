// Laws of the convex hull. There is no code here.
#![tactic(auto)]
