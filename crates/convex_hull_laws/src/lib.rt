// That a room is convex exactly if no panel outside it has its centre in the convex hull of the centres of its panels. There is
// no code here.
#![tactic(auto)]
