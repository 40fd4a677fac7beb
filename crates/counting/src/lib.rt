// Counting over settings: sums over the numbers below a bound and over lists of them, and how often a value comes up under fresh masks: permuted, at the end of a running sum, or as a product. No code.
#![tactic(auto)]
