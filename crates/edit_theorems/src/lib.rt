// What Edit and Preview promise, of each other, of Verdict and of the typing rules: theorems only.

#![tactic(auto)]
