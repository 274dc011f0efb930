// The bar of an interval.
ghost use Rattle.std.specs.Prelude.{◌<◌};
ghost use Rattle.page.specs.Filled.{Filled};
ghost use Rattle.chart.specs.Bars.{minutes_text, span_text, hint_text, attribute_text, rect_text, column_text, pillar_text, bar_text};

use super::parts::{amount, band, colour, share, value_in};
use measures::axis::height;
use page::texts::put;
use phrase::times::clock;
use words::qualities::name;

// The plot's width and height, and what all bars are wide together, in millionths.
const WIDTH: u64 = 864000000;

const HEIGHT: u64 = 300000000;

const BARS: u64 = 768000000;

const MINUTES: u64 = 1440;

// ---- what is shown where one points at the bar

fn minutes(page: &mut [u8], at: usize, m: u64) -> usize
    ensures { Filled page.old at (minutes_text m) result page.new }
{
    clock(page, at, m / 60, m % 60)
}

fn span(page: &mut [u8], at: usize, i: u64, n: usize) -> usize
    requires { i < 288 }
    ensures { Filled page.old at (span_text i n) result page.new }
{
    let p = minutes(page, at, share(i * MINUTES, n));
    let q = put(page, p, b" to ");
    let r = minutes(page, q, share((i + 1) * MINUTES, n));
    put(page, r, b": ")
}

fn hint(page: &mut [u8], at: usize, i: u64, n: usize, value: u64, flag: u8, unit: &[u8]) -> usize
    requires { i < 288 }
    ensures { Filled page.old at (hint_text i n value flag unit.now) result page.new }
{
    let p = span(page, at, i, n);
    let q = amount(page, p, value, unit);
    let r = put(page, q, b", ");
    name(page, r, flag)
}

// ---- its rectangles

fn attribute(page: &mut [u8], at: usize, what: &[u8], v: u64) -> usize
    ensures { Filled page.old at (attribute_text what.now v) result page.new }
{
    value_in(page, at, what, v, b"'")
}

// On the base line, from its start up to its colour.
fn rect(page: &mut [u8], at: usize, start: &[u8], x: u64, width: u64, height: u64) -> usize
    ensures { Filled page.old at (rect_text start.now x width height) result page.new }
{
    let p = attribute(page, at, start, x);
    let q = attribute(page, p, b" y='-", height);
    let r = attribute(page, q, b" width='", width);
    attribute(page, r, b" height='", height)
}

// The end of what is shown, and the interval's whole height.
fn column(page: &mut [u8], at: usize, i: u64, n: usize, flag: u8) -> usize
    requires { i < 288 }
    ensures { Filled page.old at (column_text i n flag) result page.new }
{
    let p = rect(
        page,
        at,
        b"</title><rect x='",
        share(i * WIDTH, n),
        share(WIDTH, n),
        HEIGHT,
    );
    band(page, p, flag)
}

// The bar itself, and the interval's end.
fn pillar(page: &mut [u8], at: usize, i: u64, n: usize, value: u64, flag: u8, most: u64) -> usize
    requires { i < 288 }
    ensures { Filled page.old at (pillar_text i n value flag most) result page.new }
{
    let p = rect(
        page,
        at,
        b"<rect x='",
        share(i * WIDTH, n),
        share(BARS, n),
        height(most, value),
    );
    let q = colour(page, p, flag);
    put(page, q, b"</g>\n")
}

// Interval i from 0, of n in a day with this largest value. No day has more than 288.
pub fn bar(
    page: &mut [u8],
    at: usize,
    i: usize,
    n: usize,
    value: u64,
    flag: u8,
    most: u64,
    unit: &[u8],
) -> usize
    ensures { Filled page.old at (bar_text i n value flag most unit.now) result page.new }
{
    let k = i as u64 % 288;
    let p = put(page, at, b"<g><title>");
    let q = hint(page, p, k, n, value, flag, unit);
    let r = column(page, q, k, n, flag);
    pillar(page, r, k, n, value, flag, most)
}
