// The language of queries typed as text (FORMAT 11), and how its texts are read: no code.

#![tactic(auto)]
