// The first half of demand 2, for Typing's answers: theory only.

#![tactic(auto)]
