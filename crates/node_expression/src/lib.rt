// The expression that a node of a file stands for: theory only.

#![tactic(auto)]
