// Words about lists, and their laws. There is no code here.
#![tactic(auto)]
