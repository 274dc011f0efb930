// What the calls of a store add up to: a plain map from key to day. Statements in specs/, theorems in proofs/. No code.
#![tactic(auto)]
