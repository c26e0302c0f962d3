// The worked walks P1 to P12: definitions and one claim. There is no code here.
#![tactic(auto)]
