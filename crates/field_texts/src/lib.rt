// The texts of a block's fields: each is put at a place of a room, and how long it is can be asked before. A function that writes answers the place
// behind what it wrote.
#![tactic(auto)]

pub mod marks;
pub mod values;
