// Formulas and instantiations over any kinds whose values are coded by digits: definitions and theorems only.

#![tactic(auto)]
