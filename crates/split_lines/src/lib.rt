// What is said of a day that is split over the outputs on its channel, put on a page. Each function answers the place behind what it put.
#![tactic(auto)]

ghost use Rattle.std.specs.Prelude.{◌≡◌};
ghost use Rattle.page.specs.Filled.{Filled};
ghost use Rattle.split_lines.specs.Lines.{amount_text, by_text, title_text, headings as Lines·headings, part_text, sum_text, is_energy, note_text};

use map_lines::tables::output_row;
use page::texts::{number, put, value};
use phrase::columns::{cell, point, right};
use store_lines::key;
use units::capital;

// ---- the line above the table

fn amount(page: &mut [u8], at: usize, total: u64, unit: &[u8]) -> usize
    ensures { Filled page.old at (amount_text total unit.now) result page.new }
{
    let p = value(page, at, total);
    let q = put(page, p, b" ");
    put(page, q, unit)
}

fn by_version(page: &mut [u8], at: usize, v: u32) -> usize
    ensures { Filled page.old at (by_text v) result page.new }
{
    let p = put(page, at, b", split by version ");
    let q = number(page, p, v as u64);
    put(page, q, b" of the map")
}

// The day's channel and date, its total in its unit, and the version of the map that holds then.
pub fn title(
    page: &mut [u8],
    at: usize,
    nmi: &[u8],
    suffix: &[u8],
    day: u64,
    total: u64,
    unit: &[u8],
    v: u32,
) -> usize
    ensures { Filled page.old at (title_text nmi.now suffix.now day total unit.now v) result page.new }
{
    let p = key(page, at, nmi, suffix, day);
    let q = put(page, p, b": ");
    let r = amount(page, q, total, unit);
    by_version(page, r, v)
}

// ---- the table

// Where the columns stand that a map's table of outputs has not, and the shares' of that.
const SUM: usize = 3;

const SHARES: usize = 33;

const POINT: usize = 45;

pub fn headings(page: &mut [u8], at: usize) -> usize
    ensures { Filled page.old at Lines·headings result page.new }
{
    put(page, at, b"output  NMI         suffix  share        part")
}

// An output on the channel by its number from 0, and its part.
pub fn part_row(
    page: &mut [u8],
    at: usize,
    output: u32,
    nmi: &[u8],
    suffix: &[u8],
    share: u64,
    part: u64,
) -> usize
    ensures { Filled page.old at (part_text output nmi.now suffix.now share part at) result page.new }
{
    let p = output_row(page, at, output, nmi, suffix, share);
    point(page, p, POINT, part)
}

// What the shares and the parts add up to.
pub fn sum_row(page: &mut [u8], at: usize, shares: u64, sum: u64) -> usize
    ensures { Filled page.old at (sum_text shares sum at) result page.new }
{
    let p = cell(page, at, SUM, b"sum");
    let q = right(page, p, SHARES, shares);
    point(page, q, POINT, sum)
}

// ---- units whose parts mean nothing

// Whether a unit of the table is one of energy, by its name: those end in h, and no other does.
pub fn is_energy(unit: &[u8]) -> bool
    ensures { result ≡ is_energy unit.now }
{
    let n = unit.len();
    0 < n && capital(unit[n - 1]) == b'H'
}

// That the values of the day are no amounts that could be shared out: volts, amperes, a power factor, or a rate as kW is.
pub fn note(page: &mut [u8], at: usize, unit: &[u8]) -> usize
    ensures { Filled page.old at (note_text unit.now) result page.new }
{
    let p = put(page, at, b"note: values in ");
    let q = put(page, p, unit);
    put(
        page,
        q,
        b" are no amounts of energy, so splitting them means nothing",
    )
}
