// The starred examples and an instantiation (FORMAT 10.1 to 10.11), a tie (FORMAT 10.13) and refused queries (FORMAT
// 10.14): tables and their theorems; no code.

#![tactic(auto)]
