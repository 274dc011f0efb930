// What things of the format are called in words: the fields of each kind of record, the qualities of an interval, and what a refusal's number means.
#![tactic(auto)]

pub mod fields;
pub mod lists;
pub mod qualities;
pub mod refusals;
