// The line in which each answer is given.
ghost use Rattle.page.specs.Filled.{Filled};
ghost use Rattle.answer_lines.specs.Lines.{line_of};
ghost use Rattle.store.specs.Calls.{made_as, kept_as, slot_read_as};
ghost use Rattle.store_calls.specs.Lines.{slot_text};

use answer_lines::answers::{accepted, refusal};
use format::Refusal;
use page::texts::put;
use store::Slot;

pub fn made(page: &mut [u8], at: usize, x: Result<usize, Refusal>) -> usize
    ensures { Filled page.old at (line_of (made_as x)) result page.new }
{
    match x {
        Ok(n) => accepted(page, at, &[n as u64]),
        Err(x) => refusal(page, at, x),
    }
}

pub fn kept(page: &mut [u8], at: usize, x: Result<usize, Refusal>) -> usize
    ensures { Filled page.old at (line_of (kept_as x)) result page.new }
{
    match x {
        Ok(n) => accepted(page, at, &[n as u64]),
        Err(x) => refusal(page, at, x),
    }
}

// With the line's end.
pub fn slot(page: &mut [u8], at: usize, x: Result<Option<Slot>, Refusal>) -> usize
    ensures { Filled page.old at (slot_text (slot_read_as x)) result page.new }
{
    match x {
        Ok(slot) => match slot {
            None => put(page, at, b"free\n"),
            Some(day) => {
                let p = accepted(
                    page,
                    at,
                    &[
                        day.nmi as u64,
                        day.suffix as u64,
                        day.date as u64,
                        day.length as u64,
                        day.unit as u64,
                        day.update,
                        day.start as u64,
                        day.end as u64,
                    ],
                );
                put(page, p, b"\n")
            }
        },
        Err(x) => {
            let p = refusal(page, at, x);
            put(page, p, b"\n")
        }
    }
}
