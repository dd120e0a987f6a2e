// Attributes and types: definitions only.

#![tactic(auto)]
