// What an accepted walk over records gives, said once: definitions in specs/, laws in proofs/. No code.
#![tactic(auto)]
