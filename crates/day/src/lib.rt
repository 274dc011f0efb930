// A day of an accepted file: where it stands, and what its records say, stored into lent lists.
#![tactic(auto)]

pub mod fields;
pub mod head;
pub mod walk;

// The 200 that days stand under, from its first byte to its CR LF. Before the first 200 it is empty.
#[derive(Clone, Copy)]
pub struct Under {
    pub at: usize,
    pub end: usize,
}

// From where a day is found: it stands behind `left` more days from the record at `at` on, and the 200 before that record is given.
#[derive(Clone, Copy)]
pub struct DayStart {
    pub at: usize,
    pub left: usize,
    pub under: Under,
}

// Where a day's 300 stands, from its first byte to its CR LF, and the 200 that it stands under.
#[derive(Clone, Copy)]
pub struct Place {
    pub at: usize,
    pub end: usize,
    pub under: Under,
}
