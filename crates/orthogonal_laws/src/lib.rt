// Mathematics of the orthogonal hull: connected blocks, quadrants, rows. There is no code here.
#![tactic(auto)]
