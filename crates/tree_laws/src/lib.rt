// How the nodes and links of a walk change with a step, and how many nodes there are: laws. There is no code here.
#![tactic(auto)]
