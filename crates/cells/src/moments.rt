// From when to when an interval goes.
ghost use Rattle.std.specs.Prelude.{◌≡◌, cond, ◌++◌, ◌/◌, ◌%◌, ◌≤◌, ltb};
ghost use Rattle.page.specs.Filled.{Filled};
ghost use Rattle.phrase.specs.Phrases.{clock_text};
ghost use Rattle.cells.specs.Cells.{field_text};
ghost use Rattle.cells.specs.Moments.{minutes_of, moment_text, start_text, end_text};

use page::texts::put;

const FULL_DAY: u64 = 1440;

// The most intervals that a day has.
const MOST: u64 = 288;

// How many minutes k intervals have, n of which make a day; 0 where n is 0.
fn minutes_of(k: u64, n: usize) -> u64
    requires { k ≤ 288 }
    ensures { result ≡ minutes_of k n }
{
    if n == 0 { 0 } else { k * FULL_DAY / n as u64 }
}

// Minutes behind midnight as a clock, made as one text: a row has two of them.
fn clock(page: &mut [u8], at: usize, minutes: u64) -> usize
    ensures { Filled page.old at (clock_text (minutes / 60 % 24) (minutes % 60)) result page.new }
{
    let hour = minutes / 60 % 24;
    let minute = minutes % 60;
    put(
        page,
        at,
        &[
            b'0' + (hour / 10) as u8,
            b'0' + (hour % 10) as u8,
            b':',
            b'0' + (minute / 10) as u8,
            b'0' + (minute % 10) as u8,
        ],
    )
}

// The day on which a moment is: minutes that make a full day lead to the day after.
fn day_of(page: &mut [u8], at: usize, today: &[u8], after: &[u8], minutes: u64) -> usize
    ensures { Filled page.old at (cond (ltb minutes 1440) today.now after.now) result page.new }
{
    put(page, at, if minutes < FULL_DAY { today } else { after })
}

fn moment(page: &mut [u8], at: usize, today: &[u8], after: &[u8], minutes: u64) -> usize
    ensures { Filled page.old at (field_text (moment_text today.now after.now minutes)) result page.new }
{
    let p = day_of(page, at, today, after, minutes);
    let q = clock(page, p, minutes);
    put(page, q, b",")
}

// From when to when interval i from 0 goes, of n in its day.
pub fn span(page: &mut [u8], at: usize, today: &[u8], after: &[u8], i: usize, n: usize) -> usize
    ensures { Filled page.old at (field_text (start_text today.now after.now i n) ++ field_text (end_text today.now after.now i n)) result page.new }
{
    let k = i as u64 % MOST;
    let p = moment(page, at, today, after, minutes_of(k, n));
    moment(page, p, today, after, minutes_of(k + 1, n))
}
