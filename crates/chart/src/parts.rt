// What the parts of the picture are made of.
ghost use Rattle.std.specs.Prelude.{◌≡◌};
ghost use Rattle.page.specs.Filled.{Filled};
ghost use Rattle.chart.specs.Parts.{share_of, amount_text, text_in, number_in, value_in, shade_of, colour_text, band_text};

use page::texts::{number, put, value};
use words::lists::text_at;

// One of n equal shares, nothing of none.
pub fn share(whole: u64, n: usize) -> u64
    ensures { result ≡ share_of whole n }
{
    if n == 0 { 0 } else { whole / n as u64 }
}

// A value and its unit.
pub fn amount(page: &mut [u8], at: usize, v: u64, unit: &[u8]) -> usize
    ensures { Filled page.old at (amount_text v unit.now) result page.new }
{
    let p = value(page, at, v);
    let q = put(page, p, b" ");
    put(page, q, unit)
}

// A text between two others.
pub fn text_in(page: &mut [u8], at: usize, before: &[u8], text: &[u8], after: &[u8]) -> usize
    ensures { Filled page.old at (text_in before.now text.now after.now) result page.new }
{
    let p = put(page, at, before);
    let q = put(page, p, text);
    put(page, q, after)
}

pub fn number_in(page: &mut [u8], at: usize, before: &[u8], n: u64, after: &[u8]) -> usize
    ensures { Filled page.old at (number_in before.now n after.now) result page.new }
{
    let p = put(page, at, before);
    let q = number(page, p, n);
    put(page, q, after)
}

// A value, or a length in the picture, which is in millionths too.
pub fn value_in(page: &mut [u8], at: usize, before: &[u8], v: u64, after: &[u8]) -> usize
    ensures { Filled page.old at (value_in before.now v after.now) result page.new }
{
    let p = put(page, at, before);
    let q = value(page, p, v);
    put(page, q, after)
}

// The number of a quality's colour.
fn shade(flag: u8) -> usize
    ensures { result ≡ shade_of flag }
{
    match flag {
        b'A' => 1,
        b'E' => 2,
        b'F' => 3,
        b'S' => 4,
        _ => 5,
    }
}

// The colour of a quality, and the end of its rectangle.
pub fn colour(page: &mut [u8], at: usize, flag: u8) -> usize
    ensures { Filled page.old at (colour_text flag) result page.new }
{
    let colours =
        b" fill='#0a4278'/>; fill='#f2b632'/>; fill='#d0590f'/>; fill='#35a79c'/>; fill='#767676'/>";
    put(page, at, text_at(colours, shade(flag)))
}

// What fills the whole height at an interval, and the end of its rectangle.
pub fn band(page: &mut [u8], at: usize, flag: u8) -> usize
    ensures { Filled page.old at (band_text flag) result page.new }
{
    if flag == b'N' {
        put(page, at, b" fill='url(#null)'/>")
    } else {
        put(page, at, b" fill='none'/>")
    }
}
