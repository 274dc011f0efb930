// Parts of the lines that people read, put on a page: columns, counts, dates and times. Each function answers the place behind what it put.
#![tactic(auto)]

pub mod columns;
pub mod counts;
pub mod times;
