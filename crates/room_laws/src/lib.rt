// The area of a room counts the panels inside it. There is no code here.
#![tactic(auto)]
