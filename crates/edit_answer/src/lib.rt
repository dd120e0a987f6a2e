// What Edit answers and leaves in its result slice, and the laws of it: no code.
#![tactic(auto)]
