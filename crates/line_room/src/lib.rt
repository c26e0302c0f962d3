// What the walk of a line answers, and what the rows program writes for it: definitions, laws and cases.
#![tactic(auto)]
