// Columns of any number of planes, and where they are stored: definitions and theorems only.

#![tactic(auto)]
