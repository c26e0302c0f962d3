// Operations, steps and turns: definitions and laws. There is no code here.
#![tactic(auto)]
