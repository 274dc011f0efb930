// The probe's case that reads several days of a file. No contract can say what is read and written, so those that read and write are proved safe, and have none; what
// they answer is put together by `month_calls`, and its intervals by `answer_lines`.
#![tactic(auto)]

ghost use Rattle.std.specs.Prelude.{◌≤◌};

use answer_lines::days::interval;
use calls::files::{BYTE_MARK, HALF_MARK, SIZE_MARK, WIDE_MARK};
use calls::kept::end_line;
use input::Going;
use input::bytes::{Cursor, fill_line};
use input::numbers::head;
use machine::Machine;
use month_calls::begin_line;
use month_calls::kept::DATE_MARK;
use output::make_room;
use page::texts::part;

// The most places of a list that has one an interval.
const INTERVALS: usize = 100000;

// The most places of a list that has one a day.
const DAYS: usize = 400;

// The first n intervals, which leave the page where it is full.
fn intervals(
    rt: &impl Machine,
    page: &mut [u8],
    at: usize,
    n: usize,
    values: &[u64],
    flags: &[u8],
    methods: &[u8],
    reasons: &[u16],
    starts: &[usize],
    lengths: &[usize],
) -> usize {
    let mut p = at;
    for i in 0..n {
        let q = interval(page, p, i, values, flags, methods, reasons, starts, lengths);
        p = make_room(rt, page, q);
    }
    p
}

fn month_in(
    rt: &impl Machine,
    file: &[u8],
    first: usize,
    last: usize,
    page: &mut [u8],
    at: usize,
    values: &mut [u64],
    flags: &mut [u8],
    methods: &mut [u8],
    reasons: &mut [u16],
    starts: &mut [usize],
    lengths: &mut [usize],
    dates: &mut [u32],
    counts: &mut [usize],
    updates: &mut [u64],
    loads: &mut [u64],
    units: &mut [u8],
) -> usize {
    let b = begin_line(
        file, first, last, page, at, values, flags, methods, reasons, starts, lengths, dates,
        counts, updates, loads, units,
    );
    let p = make_room(rt, page, b.at);
    let q = intervals(
        rt,
        page,
        p,
        b.intervals,
        values,
        flags,
        methods,
        reasons,
        starts,
        lengths,
    );
    end_line(page, q, b.kept)
}

// Days first to last, into six lists of w places and five of d. The long lists stand here alone, so that no other case has them.
fn month(
    rt: &impl Machine,
    file: &[u8],
    first: usize,
    last: usize,
    w: usize,
    d: usize,
    page: &mut [u8],
    at: usize,
) -> usize
    requires { (w ≤ 100000) × (d ≤ 400) }
{
    let mut values = [WIDE_MARK; INTERVALS];
    let mut flags = [BYTE_MARK; INTERVALS];
    let mut methods = [BYTE_MARK; INTERVALS];
    let mut reasons = [HALF_MARK; INTERVALS];
    let mut starts = [SIZE_MARK; INTERVALS];
    let mut lengths = [SIZE_MARK; INTERVALS];
    let mut dates = [DATE_MARK; DAYS];
    let mut counts = [SIZE_MARK; DAYS];
    let mut updates = [WIDE_MARK; DAYS];
    let mut loads = [WIDE_MARK; DAYS];
    let mut units = [BYTE_MARK; DAYS];
    month_in(
        rt,
        file,
        first,
        last,
        page,
        at,
        &mut values[..w],
        &mut flags[..w],
        &mut methods[..w],
        &mut reasons[..w],
        &mut starts[..w],
        &mut lengths[..w],
        &mut dates[..d],
        &mut counts[..d],
        &mut updates[..d],
        &mut loads[..d],
        &mut units[..d],
    )
}

pub fn month_case(
    rt: &impl Machine,
    buf: &mut [u8],
    c: Cursor,
    file: &mut [u8],
    page: &mut [u8],
    at: usize,
) -> Option<Going> {
    let mut numbers = [0u64; 5];
    let behind = head(rt, buf, c, b"nth ", &mut numbers)?;
    let first = numbers[0] as usize;
    let last = numbers[1] as usize;
    let w = numbers[2] as usize;
    let d = numbers[3] as usize;
    let n = numbers[4] as usize;
    if INTERVALS < w || DAYS < d {
        return None;
    }
    let after = fill_line(rt, buf, behind, n, file)?;
    Some(Going::On(
        after,
        month(rt, part(file, 0, n), first, last, w, d, page, at),
    ))
}
