// The words of the lent table, the marks and the chain: definitions and laws. There is no code here.
#![tactic(auto)]
