// No code: that a call for several days is the single calls in order, in `specs` what that means and in `proofs` that it holds.
#![tactic(auto)]
