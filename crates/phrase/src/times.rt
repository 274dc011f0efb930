// Dates and times, as people write them.
ghost use Rattle.page.specs.Filled.{Filled};
ghost use Rattle.phrase.specs.Phrases.{zero_text, two_text, two_behind, date_text, clock_text, time_text};

use page::texts::{number, put};

// The zero before a single digit.
fn zero(page: &mut [u8], at: usize, n: u64) -> usize
    ensures { Filled page.old at (zero_text n) result page.new }
{
    if n < 10 {
        put(page, at, b"0")
    } else {
        put(page, at, b"")
    }
}

// Two digits.
pub fn two(page: &mut [u8], at: usize, n: u64) -> usize
    ensures { Filled page.old at (two_text n) result page.new }
{
    let p = zero(page, at, n);
    number(page, p, n)
}

// A sign, and two digits behind it.
fn two_behind(page: &mut [u8], at: usize, sign: u8, n: u64) -> usize
    ensures { Filled page.old at (two_behind sign n) result page.new }
{
    let p = put(page, at, &[sign]);
    two(page, p, n)
}

// 20031219 as 2003-12-19.
pub fn date(page: &mut [u8], at: usize, d: u64) -> usize
    ensures { Filled page.old at (date_text d) result page.new }
{
    let p = number(page, at, d / 10000);
    let q = two_behind(page, p, b'-', d / 100 % 100);
    two_behind(page, q, b'-', d % 100)
}

// 14 and 30 as 14:30.
pub fn clock(page: &mut [u8], at: usize, hours: u64, minutes: u64) -> usize
    ensures { Filled page.old at (clock_text hours minutes) result page.new }
{
    let p = two(page, at, hours);
    two_behind(page, p, b':', minutes)
}

// 20031219143005 as 2003-12-19 14:30:05.
pub fn time(page: &mut [u8], at: usize, t: u64) -> usize
    ensures { Filled page.old at (time_text t) result page.new }
{
    let p = date(page, at, t / 1000000);
    let q = put(page, p, b" ");
    let r = clock(page, q, t / 10000 % 100, t / 100 % 100);
    two_behind(page, r, b':', t % 100)
}
