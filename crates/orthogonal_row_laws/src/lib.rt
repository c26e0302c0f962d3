// Laws of the vertical edges of a room by rows of blocks. It has no code.
#![tactic(auto)]
