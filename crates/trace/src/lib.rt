// What a walk does on the grid, apart from the tree: definitions and laws. There is no code here.
#![tactic(auto)]
