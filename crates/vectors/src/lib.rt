// The worked examples of FIPS 197, computed by its definitions. No code.
#![tactic(auto)]
