// FIPS 197 as definitions, with their laws: no code. It knows nothing of the tower, of masks or of strips.
#![tactic(auto)]
