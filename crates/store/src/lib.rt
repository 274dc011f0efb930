// The types of a store of days in lent memory: its header, and what a slot holds. What they mean is stated in specs/.
#![tactic(auto)]

// The counts and offsets that a store opens with.
#[derive(Clone, Copy)]
pub struct Header {
    pub slots: u32,
    pub days: u32,
    pub map: u64,
    pub list: u32,
    pub room: u32,
    pub size: u32,
    pub used: u32,
}

// What a used slot holds: the places of its NMI and its suffix in memory, its date, interval length, unit and update time, and where its block starts and ends.
#[derive(Clone, Copy)]
pub struct Slot {
    pub nmi: usize,
    pub suffix: usize,
    pub date: u32,
    pub length: u32,
    pub unit: u8,
    pub update: u64,
    pub start: usize,
    pub end: usize,
}
