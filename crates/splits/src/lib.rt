// The meaning of request 12, splitting a day over the outputs, in `specs`, and what its calls answer: how many outputs are on the channel.
#![tactic(auto)]
