// What the definitions of crates/format add up to: the format as a grammar in specs/, theorems in proofs/. No code.
#![tactic(auto)]
