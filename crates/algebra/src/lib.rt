// Expressions, the typing rules and cells: definitions and theorems only.

#![tactic(auto)]
