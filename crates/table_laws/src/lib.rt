// What the stores of a step and of a take-back make of the table: laws. There is no code here.
#![tactic(auto)]
