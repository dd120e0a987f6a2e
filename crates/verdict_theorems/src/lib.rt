// Demand 3 for Verdict's answers: theory only.

#![tactic(auto)]
