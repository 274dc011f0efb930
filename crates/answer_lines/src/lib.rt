// The lines in which the probe gives an answer, put on a page.
#![tactic(auto)]

pub mod answers;
pub mod days;
pub mod numbers;
