// What may come next travels as one state, by value: each record's method takes it and hands it back, or names the record's first fault.
#![tactic(auto)]

pub mod records;
pub mod steps;

ghost use Rattle.std.specs.Prelude.{◌≡◌};
ghost use Rattle.order.specs.State.{stop_of};

use format::Tag;
use record::BadField;

// What may come next.
#[derive(Clone, Copy)]
pub struct State {
    // 0: the 100; 1: the first 200; 2: a 200's first 300; 3: under a day; 4: under a V day, with its 400s; 5: behind a 500;
    // 6: the first 250; 7: behind a 250; 8: behind a 550; 9: the end.
    pub expect: u64,
    // 12 or 13, once the 100 is read.
    pub version: u64,
    // n of the channel, and how many decimals its values may have.
    pub n: usize,
    pub decimals: usize,
    // The date of the day before, in this 200.
    pub date: u64,
    // The interval at which the next 400 has to start.
    pub next: usize,
    // The mark of the day's first 400, and whether every 400 since has the same.
    pub mark: Tag,
    pub alike: bool,
    // So far.
    pub channels: usize,
    pub days: usize,
}

// A record's first fault: the refusal's number, the place from the record's start, and the field.
#[derive(Clone, Copy)]
pub struct Stop {
    pub number: u64,
    pub place: usize,
    pub field: usize,
}

// A field that breaks its rule is 6.
impl From<BadField> for Stop {
    ghost from_gives = { λ b s. s ≡ stop_of b };

    fn from(b: BadField) -> Stop {
        Stop {
            number: 6,
            place: b.place,
            field: b.field,
        }
    }
}
