// The legend: what each colour means, and how many intervals have it.
ghost use Rattle.page.specs.Filled.{Filled};
ghost use Rattle.chart.specs.Legend.{hatch_text, named_text, entry_text, first_text, legend_text};

use super::parts::{band, colour, number_in};
use measures::counts::count_of;
use page::texts::put;
use words::qualities::name;

// A square over the coloured one, as the quality's columns are.
fn hatch(page: &mut [u8], at: usize, flag: u8) -> usize
    ensures { Filled page.old at (hatch_text flag) result page.new }
{
    let p = put(page, at, b"<rect width='14' height='14'");
    band(page, p, flag)
}

fn named(page: &mut [u8], at: usize, flag: u8, count: usize) -> usize
    ensures { Filled page.old at (named_text flag count) result page.new }
{
    let p = put(page, at, b"<text x='21' y='11.5'>");
    let q = name(page, p, flag);
    number_in(page, q, b": ", count as u64, b"</text></g>\n")
}

fn entry(page: &mut [u8], at: usize, flags: &[u8], n: usize, x: u64, flag: u8) -> usize
    ensures { Filled page.old at (entry_text flags.now n x flag) result page.new }
{
    let count = count_of(flags, n, flag);
    let p = number_in(
        page,
        at,
        b"<g transform='translate(",
        x,
        b" 42)'><rect width='14' height='14'",
    );
    let q = colour(page, p, flag);
    let r = hatch(page, q, flag);
    named(page, r, flag, count)
}

fn first(page: &mut [u8], at: usize, flags: &[u8], n: usize) -> usize
    ensures { Filled page.old at (first_text flags.now n) result page.new }
{
    let p = entry(page, at, flags, n, 0, b'A');
    let q = entry(page, p, flags, n, 161, b'E');
    entry(page, q, flags, n, 342, b'F')
}

// Of the first n flags.
pub fn legend(page: &mut [u8], at: usize, flags: &[u8], n: usize) -> usize
    ensures { Filled page.old at (legend_text flags.now n) result page.new }
{
    let p = first(page, at, flags, n);
    let q = entry(page, p, flags, n, 563, b'S');
    entry(page, q, flags, n, 754, b'N')
}
