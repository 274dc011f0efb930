// No code: what a replaced day leaves of the file, over the definitions of format, whose and replacing. Statements in specs/, proofs in proofs/.
#![tactic(auto)]
