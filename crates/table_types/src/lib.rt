// The types of a node over a membership table: theory only.

#![tactic(auto)]
