// What Preview answers and leaves in its work space, and the laws of it: no code.

#![tactic(auto)]
