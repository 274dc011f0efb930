// The calls of a store, as the probe makes them: the answer is put on a page as a line, as `calls` does it, and the line says so where something that was lent has
// changed and should not have. Memory is copied before a call that may change it, so that what has changed in it is seen.
#![tactic(auto)]

mod said_lines;

ghost use Rattle.std.specs.Prelude.{◌≡◌, ◌≤◌, length};
ghost use Rattle.format.specs.Day.{five};
ghost use Rattle.format.specs.Block.{given};
ghost use Rattle.page.specs.Filled.{Filled};
ghost use Rattle.calls.specs.Lines.{day_text, lent_values, lent_marks};
ghost use Rattle.entries.specs.Keys.{key};
ghost use Rattle.entries.specs.Left.{left};
ghost use Rattle.store.specs.Calls.{kept_as, make_of, put_of, delete_of, get_of, read_slot_of};
ghost use Rattle.store_calls.specs.Lines.{make_text, change_text, slot_text};

use calls::PLACES;
use calls::files::{BYTE_MARK, HALF_MARK, SIZE_MARK, WIDE_MARK, day_shown};
use calls::kept::end_line;
use deleting::delete_day;
use edit_calls::is_kept;
use format::{DayHead, Refusal};
use getting::get_day;
use kept_bytes::{changed_from, made_from};
use making::make_store;
use page::texts::part;
use putting::put_day;
use slot_reading::read_slot;
use text::bytes::put_bytes;

// The line of a put or a delete.
fn changed(
    page: &mut [u8],
    at: usize,
    x: Result<usize, Refusal>,
    memory: &[u8],
    was: &[u8],
) -> usize
    ensures { Filled page.old at (change_text (left (kept_as x) memory.now) was.now) result page.new }
{
    let p = said_lines::kept(page, at, x);
    end_line(page, p, is_kept(memory, was, changed_from(x, memory)))
}

// A store of so many slots.
pub fn make(memory: &mut [u8], copy: &mut [u8], slots: u32, page: &mut [u8], at: usize) -> usize
    requires { length memory.old ≤ length copy.old }
    ensures line { Filled page.old at (make_text (make_of memory.old slots) memory.old) result page.new }
    ensures left { memory.new ≡ (make_of memory.old slots).memory }
{
    let whole = memory.len();
    put_bytes(copy, 0, memory);
    let x = make_store(memory, slots);
    let p = said_lines::made(page, at, x);
    end_line(page, p, is_kept(memory, part(copy, 0, whole), made_from(x)))
}

pub fn put(
    memory: &mut [u8],
    copy: &mut [u8],
    nmi: &[u8],
    suffix: &[u8],
    day: DayHead,
    values: &[u64],
    flags: &[u8],
    methods: &[u8],
    reasons: &[u16],
    starts: &[usize],
    lengths: &[usize],
    text: &[u8],
    page: &mut [u8],
    at: usize,
) -> usize
    requires { length memory.old ≤ length copy.old }
    ensures line { Filled page.old at (change_text (put_of memory.old nmi.now suffix.now (given day values.now flags.now methods.now reasons.now starts.now lengths.now text.now)) memory.old) result page.new }
    ensures left { memory.new ≡ (put_of memory.old nmi.now suffix.now (given day values.now flags.now methods.now reasons.now starts.now lengths.now text.now)).memory }
{
    let whole = memory.len();
    put_bytes(copy, 0, memory);
    let x = put_day(
        memory, nmi, suffix, day, values, flags, methods, reasons, starts, lengths, text,
    );
    changed(page, at, x, memory, part(copy, 0, whole))
}

pub fn delete(
    memory: &mut [u8],
    copy: &mut [u8],
    nmi: &[u8],
    suffix: &[u8],
    date: u32,
    page: &mut [u8],
    at: usize,
) -> usize
    requires { length memory.old ≤ length copy.old }
    ensures line { Filled page.old at (change_text (delete_of memory.old (key nmi.now suffix.now date)) memory.old) result page.new }
    ensures left { memory.new ≡ (delete_of memory.old (key nmi.now suffix.now date)).memory }
{
    let whole = memory.len();
    put_bytes(copy, 0, memory);
    let x = delete_day(memory, nmi, suffix, date);
    changed(page, at, x, memory, part(copy, 0, whole))
}

fn get_in(
    memory: &[u8],
    nmi: &[u8],
    suffix: &[u8],
    date: u32,
    page: &mut [u8],
    at: usize,
    values: &mut [u64],
    flags: &mut [u8],
    methods: &mut [u8],
    reasons: &mut [u16],
    starts: &mut [usize],
    lengths: &mut [usize],
) -> usize
    ensures { Filled page.old at (day_text (get_of memory.now (key nmi.now suffix.now date) values.old (five flags.old methods.old reasons.old starts.old lengths.old))) result page.new }
{
    let x = get_day(
        memory, nmi, suffix, date, values, flags, methods, reasons, starts, lengths,
    );
    day_shown(
        page, at, x, values, flags, methods, reasons, starts, lengths,
    )
}

// The day of a key, into six lists of w places.
pub fn get(
    memory: &[u8],
    nmi: &[u8],
    suffix: &[u8],
    date: u32,
    w: usize,
    page: &mut [u8],
    at: usize,
) -> usize
    requires { w ≤ 300 }
    ensures { Filled page.old at (day_text (get_of memory.now (key nmi.now suffix.now date) (lent_values w) (lent_marks w))) result page.new }
{
    let mut values = [WIDE_MARK; PLACES];
    let mut flags = [BYTE_MARK; PLACES];
    let mut methods = [BYTE_MARK; PLACES];
    let mut reasons = [HALF_MARK; PLACES];
    let mut starts = [SIZE_MARK; PLACES];
    let mut lengths = [SIZE_MARK; PLACES];
    get_in(
        memory,
        nmi,
        suffix,
        date,
        page,
        at,
        &mut values[..w],
        &mut flags[..w],
        &mut methods[..w],
        &mut reasons[..w],
        &mut starts[..w],
        &mut lengths[..w],
    )
}

// What slot k holds.
pub fn slot(memory: &[u8], k: usize, page: &mut [u8], at: usize) -> usize
    ensures { Filled page.old at (slot_text (read_slot_of memory.now k)) result page.new }
{
    said_lines::slot(page, at, read_slot(memory, k))
}
