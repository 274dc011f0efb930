// What the channels of a file add up to, as a table.
ghost use Rattle.page.specs.Filled.{Filled};
ghost use Rattle.tables.specs.Totals.{headings as Totals·headings, names_text, sums_text, row_text};

use page::texts::put;
use phrase::columns::{cell, point, right};

// Where the columns of the table start, or, of numbers, end.
const CHANNEL: usize = 7;

const NMI: usize = 9;

const SUFFIX: usize = 21;

const UNIT: usize = 29;

const DAYS: usize = 40;

const POINT: usize = 56;

pub fn headings(page: &mut [u8], at: usize) -> usize
    ensures { Filled page.old at Totals·headings result page.new }
{
    put(
        page,
        at,
        b"channel  NMI         suffix  unit    days           total",
    )
}

fn names(page: &mut [u8], at: usize, nmi: &[u8], suffix: &[u8], unit: &[u8]) -> usize
    ensures { Filled page.old at (names_text nmi.now suffix.now unit.now at) result page.new }
{
    let p = cell(page, at, NMI, nmi);
    let q = cell(page, p, SUFFIX, suffix);
    cell(page, q, UNIT, unit)
}

fn sums(page: &mut [u8], at: usize, days: usize, total: u64) -> usize
    ensures { Filled page.old at (sums_text days total at) result page.new }
{
    let p = right(page, at, DAYS, days as u64);
    point(page, p, POINT, total)
}

// Channel k: its NMI, suffix and unit, how many days it has, and its total.
pub fn row(
    page: &mut [u8],
    at: usize,
    k: usize,
    nmi: &[u8],
    suffix: &[u8],
    unit: &[u8],
    days: usize,
    total: u64,
) -> usize
    ensures { Filled page.old at (row_text k nmi.now suffix.now unit.now days total at) result page.new }
{
    let p = right(page, at, CHANNEL, k as u64);
    let q = names(page, p, nmi, suffix, unit);
    sums(page, q, days, total)
}
