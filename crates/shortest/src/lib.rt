// The written day block among all blocks that are accepted: what it says, and that none is shorter. Statements in specs/, theorems in proofs/. No code.
#![tactic(auto)]
