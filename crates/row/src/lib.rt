// Definitions alone: panels by rows.
#![tactic(auto)]
