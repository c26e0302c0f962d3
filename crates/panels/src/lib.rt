// The panels that a walk goes round: its vertical edges seen from a panel, its bounding box, the panels inside it, and loops
// moved, turned or mirrored. There is no code here.
#![tactic(auto)]
