// The masked inversion and its 62 points: what they are, that the inversion is right, and how often a point takes each value. No code.
#![tactic(auto)]
