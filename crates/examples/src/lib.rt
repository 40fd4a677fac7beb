// Fourteen worked examples, P1 to P14: one table and one statement, no code.
#![tactic(auto)]
