// One day of a file replaced in place: the file is checked once, the new block once, and the tail of the file is moved once.
#![tactic(auto)]

ghost use Rattle.std.specs.Prelude.{◌≡◌, ◌≤◌, length, take};
ghost use Rattle.format.specs.Answers.{refused, refused_as};
ghost use Rattle.format.specs.File.{most};
ghost use Rattle.moving.specs.Moving.{spliced};
ghost use Rattle.replacing.specs.Replace.{left, replaced_as, put_of, replace_of};
ghost use Rattle.replacing.specs.Tries.{Found, Answers};

use alone::check_block;
use day::head::head_at;
use format::Refusal;
use lines::line_end;
use moving::splice;
use whose::find_day;

// Where the day's block starts and ends, which the new one may take the place of.
#[derive(Clone, Copy)]
pub struct OldBlock {
    pub start: usize,
    pub end: usize,
}

// The block's date is another than the day's.
fn another_date() -> Refusal
    ensures { refused_as result ≡ refused 8 4 0 2 }
{
    Refusal {
        number: 8,
        place: 4,
        record: 0,
        field: 2,
    }
}

// Where the day has that unit and interval length, and its block stands from a to e. The block's own refusal comes first, then 8 for another date.
fn try_there(
    file: &[u8],
    day: usize,
    unit: u8,
    minutes: u32,
    a: usize,
    e: usize,
    block: &[u8],
) -> Result<OldBlock, Refusal>
    requires { Found file.now day unit minutes a e }
    ensures { Answers file.now day block.now result }
{
    let new = check_block(block, 0, minutes, unit)?;
    let date = new.date;
    let top = head_at(file, a, line_end(file, a));
    if date != top.date {
        return Err(another_date());
    }
    Ok(OldBlock { start: a, end: e })
}

// Whether the block may take the place of the day's, whatever the room.
fn try_block(file: &[u8], day: usize, block: &[u8]) -> Result<OldBlock, Refusal>
    ensures { Answers file.now day block.now result }
{
    let found = find_day(file, day)?;
    try_there(
        file,
        day,
        found.unit,
        found.length,
        found.start,
        found.end,
        block,
    )
}

// The block into the place of the bytes from a to e of the file at the room's start, if the edited file is short enough and the room holds it. The lengths are
// compared by what is left, since a sum of any two could be too large.
fn put_block(room: &mut [u8], n: usize, a: usize, e: usize, block: &[u8]) -> Result<usize, Refusal>
    requires { (a ≤ e) × (e ≤ n) × (n ≤ most) × (n ≤ length room.old) }
    ensures { left (replaced_as result) room.new ≡ put_of (spliced (take n room.old) a e block.now) room.old }
{
    let kept = n - (e - a);
    let more = block.len();
    if 1048576 - kept < more {
        return Err(Refusal::bare(1));
    }
    if room.len() - kept < more {
        return Err(Refusal::bare(15));
    }
    Ok(splice(room, n, a, e, block))
}

// The file is the first `length` bytes of the room. The block takes the place of that of its day of a number from 0, and the file's new length is answered.
// 15 comes first if the room is shorter than the length; then the file's own refusal, 14 if there is no such day, the block's own refusal, placed in the block,
// as of a block behind the day's own 200, 8 if the block's date is another, 1 if the edited file would be too long, 15 if the room would be too short for it.
// A refusal leaves every byte of the room, and the bytes behind the file's new end stay as they were.
pub fn replace_day(
    room: &mut [u8],
    length: usize,
    day: usize,
    block: &[u8],
) -> Result<usize, Refusal>
    ensures { left (replaced_as result) room.new ≡ replace_of room.old «length» day block.now }
{
    if room.len() < length {
        return Err(Refusal::bare(15));
    }
    let old = try_block(&room[..length], day, block)?;
    put_block(room, length, old.start, old.end, block)
}
