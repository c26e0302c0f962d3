// Rooms are definitions and laws; the code that judges them stands in room_judge.
#![tactic(auto)]
