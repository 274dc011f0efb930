// The types that contracts name: what a call answers, and what is read of one field. What they mean is stated in specs/.
#![tactic(auto)]

ghost use Rattle.std.specs.Prelude.{◌≡◌};
ghost use Rattle.format.specs.Answers.{refusal, refused_as};

// A refusal of document 01's table.
#[derive(Clone, Copy)]
pub struct Refusal {
    pub number: u64,
    pub place: usize,
    pub record: usize,
    pub field: usize,
}

impl Refusal {
    // A refusal without a place of its own.
    pub fn bare(number: u64) -> Refusal
        ensures { refused_as result ≡ refusal number }
    {
        Refusal {
            number,
            place: 0,
            record: 0,
            field: 0,
        }
    }
}

// What a check says of a file that it accepts. The version is 12 or 13.
#[derive(Clone, Copy)]
pub struct Checked {
    pub version: u64,
    pub channels: usize,
    pub days: usize,
}

// What a check of a block on its own says of one that it accepts: what its 300 says of the day, and how many records it has.
#[derive(Clone, Copy)]
pub struct BlockChecked {
    pub date: u32,
    pub n: usize,
    pub update: u64,
    pub load: u64,
    pub records: usize,
}

// What a reading of a day answers, beside the lists that it fills. A load time of 0 says that there is none; the unit is its number in the table of units.
#[derive(Clone, Copy)]
pub struct DayRead {
    pub date: u32,
    pub n: usize,
    pub update: u64,
    pub load: u64,
    pub unit: u8,
}

// A day to be written, beside its lists: date, interval length in minutes, update time, load time or 0, the unit's number.
#[derive(Clone, Copy)]
pub struct DayHead {
    pub date: u32,
    pub length: u32,
    pub update: u64,
    pub load: u64,
    pub unit: u8,
}

// What a writing of a day answers: the block's bytes and records.
#[derive(Clone, Copy)]
pub struct Written {
    pub bytes: usize,
    pub records: usize,
}

// What a quality field says: its flag and its method.
#[derive(Clone, Copy)]
pub struct Grade {
    pub flag: u8,
    pub method: u8,
}

// The rule of a field; that of a value has the number of decimals that it may have.
#[derive(Clone, Copy)]
pub enum Rule {
    Indicator,
    Version,
    Created,
    Party,
    Nmi,
    Configuration,
    Register,
    Suffix,
    Stream,
    Serial,
    Unit,
    Length,
    NextRead,
    Date,
    Value(usize),
    Quality,
    Reason,
    Description,
    Time,
    Load,
    Interval,
    TransCode,
    ServiceOrder,
    ReadTime,
    IndexRead,
    Direction,
    RegisterRead,
}

// The mark of an interval: quality, reason, and where its description stands in the file.
#[derive(Clone, Copy)]
pub struct Tag {
    pub flag: u8,
    pub method: u8,
    pub reason: u16,
    pub start: usize,
    pub length: usize,
}
