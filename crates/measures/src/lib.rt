// What is measured of a day's lists, for those who show the day: the axis of its values, and how many intervals have which quality.
#![tactic(auto)]

pub mod axis;
pub mod counts;
