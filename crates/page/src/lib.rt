// What the programs write: texts put on a lent page, one behind the other, as far as there is room.
#![tactic(auto)]

pub mod items;
pub mod texts;
