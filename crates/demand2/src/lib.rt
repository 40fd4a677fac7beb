// Demand 2 to the letter: a block call under the words of an expansion is AES of FIPS 197, both ways. No code.
#![tactic(auto)]
