// The formula of a node as it stands in the work space, and demand 3 for it: theory only.

#![tactic(auto)]
