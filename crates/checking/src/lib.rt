// The check of a file: one walk over its records, which also notes from where a day and a channel are found.
#![tactic(auto)]

pub mod check;
pub mod tour;
