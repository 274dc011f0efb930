// What is said of a refusal of a file, put on a page: what it means, where it stands, what would be right there.
#![tactic(auto)]

mod hints;
pub mod refused;
