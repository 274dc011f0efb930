// Fields of the tables for other tools: a text, in quotes where it has to be, and the moments at which an interval starts and ends. Each function answers the
// place behind what it put.
#![tactic(auto)]

pub mod moments;
pub mod quotes;
