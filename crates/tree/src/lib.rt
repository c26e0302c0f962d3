// The nodes in use and their links: definitions and laws. There is no code here.
#![tactic(auto)]
