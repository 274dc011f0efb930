// The line of a day that was read: its answer, and behind it its intervals.
ghost use Rattle.std.specs.Prelude.{◌≡◌};
ghost use Rattle.page.specs.Filled.{Filled};
ghost use Rattle.page.specs.Texts.{texts};
ghost use Rattle.answer_lines.specs.Lines.{interval_in, intervals_read, day_line};

use super::answers::day_read;
use super::numbers::{number_behind, numbers_behind};
use format::{DayRead, Refusal};
use page::items::{u8_at, u16_at, u64_at, usize_at};

// Interval i: a space, then its six numbers with slashes between them.
pub fn interval(
    page: &mut [u8],
    at: usize,
    i: usize,
    values: &[u64],
    flags: &[u8],
    methods: &[u8],
    reasons: &[u16],
    starts: &[usize],
    lengths: &[usize],
) -> usize
    ensures { Filled page.old at (interval_in values.now flags.now methods.now reasons.now starts.now lengths.now i) result page.new }
{
    let value = u64_at(values, i);
    let flag = u8_at(flags, i);
    let method = u8_at(methods, i);
    let reason = u16_at(reasons, i);
    let start = usize_at(starts, i);
    let length = usize_at(lengths, i);
    let p = number_behind(page, at, b' ', value);
    numbers_behind(
        page,
        p,
        b'/',
        &[
            flag as u64,
            method as u64,
            reason as u64,
            start as u64,
            length as u64,
        ],
    )
}

// The first n intervals.
fn intervals(
    page: &mut [u8],
    at: usize,
    n: usize,
    values: &[u64],
    flags: &[u8],
    methods: &[u8],
    reasons: &[u16],
    starts: &[usize],
    lengths: &[usize],
) -> usize
    ensures { Filled page.old at (texts (interval_in values.now flags.now methods.now reasons.now starts.now lengths.now) n) result page.new }
{
    let mut p = at;
    for i in 0..n {
        p = interval(page, p, i, values, flags, methods, reasons, starts, lengths);
    }
    p
}

// How many intervals were read.
pub fn intervals_read(x: Result<DayRead, Refusal>) -> usize
    ensures { result ≡ intervals_read x }
{
    match x {
        Ok(d) => d.n,
        Err(_) => 0,
    }
}

pub fn day_line(
    page: &mut [u8],
    at: usize,
    x: Result<DayRead, Refusal>,
    values: &[u64],
    flags: &[u8],
    methods: &[u8],
    reasons: &[u16],
    starts: &[usize],
    lengths: &[usize],
) -> usize
    ensures { Filled page.old at (day_line x (interval_in values.now flags.now methods.now reasons.now starts.now lengths.now)) result page.new }
{
    let n = intervals_read(x);
    let p = day_read(page, at, x);
    intervals(page, p, n, values, flags, methods, reasons, starts, lengths)
}
