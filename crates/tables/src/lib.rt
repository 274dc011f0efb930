// The tables that people read, a line at a time: a day's intervals, and what the channels add up to.
#![tactic(auto)]

pub mod days;
pub mod totals;
