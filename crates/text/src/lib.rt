// Bytes, parts of a lent text and numbers, put at a place of a room. A function that writes answers the place behind what it wrote.
#![tactic(auto)]

pub mod bytes;
pub mod digits;
