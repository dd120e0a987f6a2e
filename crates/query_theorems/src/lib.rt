// What parsing a query promises, over the language and the expressions of nodes: theorems only.

#![tactic(auto)]
