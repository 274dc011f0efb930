// The types of what is kept in lent memory for a day of a key. What they mean is stated in specs/.
#![tactic(auto)]

// What an entry holds beside its key: the interval length in minutes and the unit's number of its block, and that block's offset and length.
#[derive(Clone, Copy)]
pub struct Entry {
    pub minutes: u8,
    pub unit: u8,
    pub start: u32,
    pub size: u32,
}
