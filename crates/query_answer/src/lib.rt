// What parsing a query answers and leaves in its slice, and the laws of it: no code.

#![tactic(auto)]
