// What the walk's call answers and leaves in its buffers: definitions and laws. There is no code here.
#![tactic(auto)]
