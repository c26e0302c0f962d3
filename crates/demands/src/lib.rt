// What is asked of the calls and of the programs on lines, as theorems: the customer's three demands (RULES 8), and a page for
// each later request. There is no code here.
#![tactic(auto)]
