// From the calls to the system: a run of two masters and the bytes between them is a run of the mirrored pool. No code.
#![tactic(auto)]
