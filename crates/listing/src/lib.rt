// The days of a file and the slots of a store as tables, a line for each.
#![tactic(auto)]

pub mod lines;
pub mod slots;
