// Laws of what lies outside an outline, and of the outline of a room. There is no code here.
#![tactic(auto)]
