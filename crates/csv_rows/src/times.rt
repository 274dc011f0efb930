// Dates and times, with a T between the date and the clock.
ghost use Rattle.std.specs.Prelude.{◌++◌, ◌/◌, ◌%◌};
ghost use Rattle.page.specs.Filled.{Filled};
ghost use Rattle.phrase.specs.Phrases.{clock_text, two_behind};
ghost use Rattle.csv_rows.specs.Times.{day_text, seconds_text};

use page::texts::put;
use phrase::times::date;

// A day of any year.
fn any_day(page: &mut [u8], at: usize, d: u64) -> usize
    ensures { Filled page.old at (day_text d) result page.new }
{
    let p = date(page, at, d);
    put(page, p, b"T")
}

// 20031219 as 2003-12-19T, for a clock behind it: as one text where the year has four digits, which is nearly always.
pub fn day(page: &mut [u8], at: usize, d: u64) -> usize
    ensures { Filled page.old at (day_text d) result page.new }
{
    // Two guards: what the digits need is found in each by itself.
    if d < 10000000 {
        return any_day(page, at, d);
    }
    if 99999999 < d {
        return any_day(page, at, d);
    }
    put(
        page,
        at,
        &[
            b'0' + (d / 10000000) as u8,
            b'0' + (d / 1000000 % 10) as u8,
            b'0' + (d / 100000 % 10) as u8,
            b'0' + (d / 10000 % 10) as u8,
            b'-',
            b'0' + (d / 1000 % 10) as u8,
            b'0' + (d / 100 % 10) as u8,
            b'-',
            b'0' + (d / 10 % 10) as u8,
            b'0' + (d % 10) as u8,
            b'T',
        ],
    )
}

// The last six digits of a time as 06:20:35.
fn clock(page: &mut [u8], at: usize, t: u64) -> usize
    ensures { Filled page.old at (clock_text (t / 10000 % 100) (t / 100 % 100) ++ two_behind 58 (t % 100)) result page.new }
{
    put(
        page,
        at,
        &[
            b'0' + (t / 100000 % 10) as u8,
            b'0' + (t / 10000 % 10) as u8,
            b':',
            b'0' + (t / 1000 % 10) as u8,
            b'0' + (t / 100 % 10) as u8,
            b':',
            b'0' + (t / 10 % 10) as u8,
            b'0' + (t % 10) as u8,
        ],
    )
}

// 20230409062035 as 2023-04-09T06:20:35.
pub fn seconds(page: &mut [u8], at: usize, t: u64) -> usize
    ensures { Filled page.old at (seconds_text t) result page.new }
{
    let p = day(page, at, t / 1000000);
    clock(page, p, t)
}
