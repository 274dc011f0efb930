// No code: what splitting a day comes to. The parts add up to the total, outputs of other channels get 0, each part is the exact share rounded down or one more, and
// whoever has the larger remainder, or the same and a lower number, gets its one first.
#![tactic(auto)]
