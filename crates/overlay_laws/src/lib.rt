// Two lists of lower ends joined, and the spans of a part of two rooms. There is no code here.
#![tactic(auto)]
