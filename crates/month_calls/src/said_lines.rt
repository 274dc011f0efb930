// The answer, and behind it the days that were read.
ghost use Rattle.std.specs.Prelude.{◌≡◌, get_or};
ghost use Rattle.page.specs.Filled.{Filled};
ghost use Rattle.page.specs.Texts.{texts};
ghost use Rattle.answer_lines.specs.Lines.{line_of};
ghost use Rattle.months.specs.Month.{daily, days_read_as};
ghost use Rattle.month_calls.specs.Lines.{day_in};

use answer_lines::answers::{accepted, refusal};
use answer_lines::numbers::{number_behind, numbers_behind};
use format::Refusal;
use months::DaysRead;
use page::items::{u8_at, u64_at, usize_at};

pub fn days_read(page: &mut [u8], at: usize, x: Result<DaysRead, Refusal>) -> usize
    ensures { Filled page.old at (line_of (days_read_as x)) result page.new }
{
    match x {
        Ok(d) => accepted(page, at, &[d.days as u64, d.intervals as u64]),
        Err(x) => refusal(page, at, x),
    }
}

// The element at a place, 0 past the end.
fn date_at(list: &[u32], i: usize) -> u32
    ensures { result ≡ get_or list.now i 0 }
{
    list.get(i).copied().unwrap_or(0)
}

// Day i: a space, then its five numbers with slashes between them.
fn day(
    page: &mut [u8],
    at: usize,
    i: usize,
    dates: &[u32],
    counts: &[usize],
    updates: &[u64],
    loads: &[u64],
    units: &[u8],
) -> usize
    ensures { Filled page.old at (day_in (daily dates.now counts.now updates.now loads.now units.now) i) result page.new }
{
    let date = date_at(dates, i);
    let count = usize_at(counts, i);
    let update = u64_at(updates, i);
    let load = u64_at(loads, i);
    let unit = u8_at(units, i);
    let p = number_behind(page, at, b' ', date as u64);
    numbers_behind(page, p, b'/', &[count as u64, update, load, unit as u64])
}

// The first n days.
pub fn days(
    page: &mut [u8],
    at: usize,
    n: usize,
    dates: &[u32],
    counts: &[usize],
    updates: &[u64],
    loads: &[u64],
    units: &[u8],
) -> usize
    ensures { Filled page.old at (texts (day_in (daily dates.now counts.now updates.now loads.now units.now)) n) result page.new }
{
    let mut p = at;
    for i in 0..n {
        p = day(page, p, i, dates, counts, updates, loads, units);
    }
    p
}
