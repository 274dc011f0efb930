// The meaning of request 11, a tenant map, in `specs`: its bytes and its calls. The version's number, which its calls answer, is 0 for a map that was made.
#![tactic(auto)]
