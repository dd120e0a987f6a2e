// Which subsets give every relation an attribute, with the fewest memberships: definitions and laws only.

#![tactic(auto)]
