// The page that rows are put on: it is written out where it is half full, and no row is as long as the other half.
use day::DayStart;
use machine::Machine;
use outward::{DONE, write};

const HALF: usize = 32768;

// The place on the page that rows have come to, and the status of writing it out.
#[derive(Clone, Copy)]
pub struct Sheet {
    pub at: usize,
    pub status: u8,
}

// Behind a row.
pub fn behind(rt: &impl Machine, page: &[u8], at: usize) -> Sheet {
    if at < HALF {
        Sheet { at, status: DONE }
    } else {
        Sheet {
            at: 0,
            status: write(rt, page, at),
        }
    }
}

// Behind a day: the sheet, and from where the next day is found.
#[derive(Clone, Copy)]
pub struct Passed {
    pub sheet: Sheet,
    pub next: DayStart,
}
