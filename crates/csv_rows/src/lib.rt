// The tables for other tools, a line at a time: a row for each interval of a NEM12 file or each 250 of a NEM13 file, and a row for each day. Fields are
// parted by commas and each line ends with LF. Each function answers the place behind what it put.
#![tactic(auto)]

pub mod rows;
pub mod times;
