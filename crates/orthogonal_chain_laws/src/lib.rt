// The chain around a pile of rows of blocks: it is a room with exactly these rows inside. There is no code here.
#![tactic(auto)]
