// Laws of a store, taken apart: its used slots, the slot of a key, its conditions one by one. No code.
#![tactic(auto)]
