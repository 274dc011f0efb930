// What stands around the bars: titles, axes and grid.
ghost use Rattle.std.specs.Prelude.{◌<◌, ◌≤◌};
ghost use Rattle.page.specs.Filled.{Filled};
ghost use Rattle.measures.specs.Axis.{steps_for};
ghost use Rattle.chart.specs.Frame.{opening as Frame·opening, title_text, sum_text, lengths_text, head_text, hour_text, hours_text, step_text, lines_text, values_text, grid_text, ending};

use super::parts::{amount, number_in, share, text_in, value_in};
use measures::axis::{height, step_for, steps_for};
use page::texts::put;
use phrase::times::{clock, date};

// ---- above the plot

fn opening(page: &mut [u8], at: usize) -> usize
    ensures { Filled page.old at Frame·opening result page.new }
{
    put(
        page,
        at,
        b"<svg xmlns='http://www.w3.org/2000/svg' viewBox='0 0 960 480' width='960' height='480' font-family='system-ui,sans-serif' font-size='12' fill='#444'>\n\
        <defs><pattern id='null' width='5' height='5' patternUnits='userSpaceOnUse' patternTransform='rotate(45)'>\
        <rect width='5' height='5' fill='#f4f4f4'/><path d='M0 0v5' stroke='#999' stroke-width='2'/></pattern></defs>\n\
        <rect width='960' height='480' fill='#fff'/>\n\
        <g font-size='18' font-weight='600' fill='#111'><text x='76' y='36'>NMI ",
    )
}

fn title(page: &mut [u8], at: usize, nmi: &[u8], suffix: &[u8], on: u64) -> usize
    ensures { Filled page.old at (title_text nmi.now suffix.now on) result page.new }
{
    let p = text_in(page, at, nmi, b" &#183; suffix ", suffix);
    let q = put(page, p, b" &#183; ");
    date(page, q, on)
}

fn sum(page: &mut [u8], at: usize, total: u64, unit: &[u8]) -> usize
    ensures { Filled page.old at (sum_text total unit.now) result page.new }
{
    let p = put(page, at, b"</text><text x='940' y='36' text-anchor='end'>");
    amount(page, p, total, unit)
}

fn lengths(page: &mut [u8], at: usize, n: usize) -> usize
    ensures { Filled page.old at (lengths_text n) result page.new }
{
    let p = number_in(
        page,
        at,
        b"</text></g>\n<text x='76' y='56'>",
        n as u64,
        b" intervals of ",
    );
    number_in(
        page,
        p,
        b"",
        share(1440, n),
        b" minutes</text><text x='940' y='56' text-anchor='end'>sum of the day</text>\n",
    )
}

// The picture's start, with the titles of a day of n intervals that adds up to a total.
pub fn head(
    page: &mut [u8],
    at: usize,
    nmi: &[u8],
    suffix: &[u8],
    unit: &[u8],
    on: u64,
    n: usize,
    total: u64,
) -> usize
    ensures { Filled page.old at (head_text nmi.now suffix.now unit.now on n total) result page.new }
{
    let p = opening(page, at);
    let q = title(page, p, nmi, suffix, on);
    let r = sum(page, q, total, unit);
    lengths(page, r, n)
}

// ---- the grid

fn hour(page: &mut [u8], at: usize, k: u64) -> usize
    requires { k < 9 }
    ensures { Filled page.old at (hour_text k) result page.new }
{
    let p = number_in(
        page,
        at,
        b"<g transform='translate(",
        k * 108,
        b" 0)'><path d='M0 4v-304' stroke='#e4e4e4'/><text y='19'>",
    );
    let q = clock(page, p, k * 3, 0);
    put(page, q, b"</text></g>\n")
}

// From 00:00 to 24:00.
fn hours(page: &mut [u8], at: usize) -> usize
    ensures { Filled page.old at hours_text result page.new }
{
    let mut p = at;
    for k in 0..9 {
        p = hour(page, p, k);
    }
    p
}

fn step(page: &mut [u8], at: usize, most: u64, k: u64) -> usize
    requires { k ≤ steps_for most }
    ensures { Filled page.old at (step_text most k) result page.new }
{
    let v = k * step_for(most);
    let p = value_in(
        page,
        at,
        b"<g transform='translate(0 -",
        height(most, v),
        b")'><path d='M-4 0h868' stroke='#d4d4d4'/><text x='-8' y='4'>",
    );
    value_in(page, p, b"", v, b"</text></g>\n")
}

// From 0 to the top.
fn lines(page: &mut [u8], at: usize, most: u64) -> usize
    ensures { Filled page.old at (lines_text most) result page.new }
{
    let n = steps_for(most) + 1;
    let mut p = at;
    for k in 0..n {
        p = step(page, p, most, k);
    }
    p
}

fn values(page: &mut [u8], at: usize, most: u64, unit: &[u8]) -> usize
    ensures { Filled page.old at (values_text most unit.now) result page.new }
{
    let p = text_in(
        page,
        at,
        b"</g>\n<g font-size='11' text-anchor='end'>\n<text x='-8' y='-318' font-weight='600'>",
        unit,
        b"</text>\n",
    );
    let q = lines(page, p, most);
    put(page, q, b"</g>\n")
}

// The grid of a day with this largest value; the plot stays open for the bars.
pub fn grid(page: &mut [u8], at: usize, most: u64, unit: &[u8]) -> usize
    ensures { Filled page.old at (grid_text most unit.now) result page.new }
{
    let p = put(
        page,
        at,
        b"<g transform='translate(76 400)' pointer-events='all'>\n<g font-size='11' text-anchor='middle'>\n",
    );
    let q = hours(page, p);
    values(page, q, most, unit)
}

// The picture's end, with the base line over the bars.
pub fn end(page: &mut [u8], at: usize) -> usize
    ensures { Filled page.old at ending result page.new }
{
    put(
        page,
        at,
        b"<path d='M0 0h864' stroke='#444'/>\n</g>\n</svg>\n",
    )
}
