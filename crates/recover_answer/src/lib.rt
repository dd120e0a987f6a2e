// What Recover answers and leaves in its slices, and the laws of it: no code.
#![tactic(auto)]
