// Principal type inference for expressions: theorems only.

#![tactic(auto)]
