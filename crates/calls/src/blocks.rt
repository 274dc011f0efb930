// The entry that is handed a day: write_day.
ghost use Rattle.std.specs.Prelude.{◌≡◌, length};
ghost use Rattle.format.specs.Answers.{written_as};
ghost use Rattle.format.specs.Block.{given, write_of, room_of};
ghost use Rattle.page.specs.Filled.{Filled};
ghost use Rattle.calls.specs.Lines.{bytes_in, block_text};

use super::kept;
use super::kept::end_line;
use answer_lines::answers;
use format::{DayHead, Refusal, Written};
use writing::write_day;

// What each place of the lent room is filled with: nothing that a block has.
pub const EMPTY: u8 = 0;

// The place behind the line on the page, and the block's bytes in the room.
#[derive(Clone, Copy)]
pub struct Wrote {
    pub at: usize,
    pub bytes: usize,
}

fn bytes_in(x: Result<Written, Refusal>) -> usize
    ensures { result ≡ bytes_in (written_as x) }
{
    match x {
        Ok(w) => w.bytes,
        Err(_) => 0,
    }
}

// The day written into a room that is empty.
pub fn block(
    day: DayHead,
    values: &[u64],
    flags: &[u8],
    methods: &[u8],
    reasons: &[u16],
    starts: &[usize],
    lengths: &[usize],
    text: &[u8],
    room: &mut [u8],
    page: &mut [u8],
    at: usize,
) -> Wrote
    ensures line { Filled page.old at (block_text (given day values.now flags.now methods.now reasons.now starts.now lengths.now text.now) room.old) result.at page.new }
    ensures bytes { result.bytes ≡ bytes_in (write_of (given day values.now flags.now methods.now reasons.now starts.now lengths.now text.now) (length room.old)) }
    ensures left { room.new ≡ room_of (given day values.now flags.now methods.now reasons.now starts.now lengths.now text.now) room.old }
{
    let x = write_day(
        day, values, flags, methods, reasons, starts, lengths, text, room,
    );
    let n = bytes_in(x);
    let p = answers::written(page, at, x);
    Wrote {
        at: end_line(page, p, kept::bytes(room, n, EMPTY)),
        bytes: n,
    }
}
