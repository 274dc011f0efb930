// What a file says: one day, one channel's total.
#![tactic(auto)]

pub mod read_day;
pub mod total;
