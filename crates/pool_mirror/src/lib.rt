// The mirrored pool as a system: an active master, its standby, and a link that loses, repeats, delays and reorders; and what is claimed of every run. No code.
#![tactic(auto)]
