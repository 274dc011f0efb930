// The table of days: its headings, and the line of a day.
ghost use Rattle.std.specs.Prelude.{[], ◌∷◌};
ghost use Rattle.page.specs.Filled.{Filled};
ghost use Rattle.phrase.specs.Phrases.{date_text, cell_text, right_text, point_text};
ghost use Rattle.listing.specs.Lines.{headings as Lines·headings, columns, count_columns, row_text};

use measures::counts::Counts;
use page::texts::put;
use phrase::columns::{cell, point, right};
use phrase::times::date;

// Where the columns of the table start, or, of numbers, end.
const DAY: usize = 6;

const CHANNEL: usize = 15;

const NMI: usize = 17;

const SUFFIX: usize = 29;

const DATE: usize = 37;

const MINUTES: usize = 56;

const POINT: usize = 67;

const UNIT: usize = 75;

const ACTUAL: usize = 87;

const ESTIMATED: usize = 97;

const FINAL: usize = 103;

const SUBSTITUTED: usize = 115;

const NULL: usize = 120;

pub fn headings(page: &mut [u8], at: usize) -> usize
    ensures { Filled page.old at Lines·headings result page.new }
{
    put(
        page,
        at,
        b"   day  channel  NMI         suffix  date        minutes        sum        unit  actual estimated final substituted null",
    )
}

// The day's number and its channel's.
fn numbers(page: &mut [u8], at: usize, day: usize, channel: usize) -> usize
    ensures { Filled page.old at (columns (right_text 6 day ∷ right_text 15 channel ∷ []) at) result page.new }
{
    let p = right(page, at, DAY, day as u64);
    right(page, p, CHANNEL, channel as u64)
}

fn dated(page: &mut [u8], at: usize, d: u64) -> usize
    ensures { Filled page.old at (cell_text 37 (date_text d) at) result page.new }
{
    let p = cell(page, at, DATE, b"");
    date(page, p, d)
}

fn names(page: &mut [u8], at: usize, nmi: &[u8], suffix: &[u8], d: u64) -> usize
    ensures { Filled page.old at (columns (cell_text 17 nmi.now ∷ cell_text 29 suffix.now ∷ cell_text 37 (date_text d) ∷ []) at) result page.new }
{
    let p = cell(page, at, NMI, nmi);
    let q = cell(page, p, SUFFIX, suffix);
    dated(page, q, d)
}

fn amounts(page: &mut [u8], at: usize, minutes: u64, sum: u64, unit: &[u8]) -> usize
    ensures { Filled page.old at (columns (right_text 56 minutes ∷ point_text 67 sum ∷ cell_text 75 unit.now ∷ []) at) result page.new }
{
    let p = right(page, at, MINUTES, minutes);
    let q = point(page, p, POINT, sum);
    cell(page, q, UNIT, unit)
}

fn first_counts(page: &mut [u8], at: usize, actual: usize, estimated: usize) -> usize
    ensures { Filled page.old at (columns (right_text 87 actual ∷ right_text 97 estimated ∷ []) at) result page.new }
{
    let p = right(page, at, ACTUAL, actual as u64);
    right(page, p, ESTIMATED, estimated as u64)
}

fn last_counts(page: &mut [u8], at: usize, finals: usize, substituted: usize, null: usize) -> usize
    ensures { Filled page.old at (columns (right_text 103 finals ∷ right_text 115 substituted ∷ right_text 120 null ∷ []) at) result page.new }
{
    let p = right(page, at, FINAL, finals as u64);
    let q = right(page, p, SUBSTITUTED, substituted as u64);
    right(page, q, NULL, null as u64)
}

fn qualities(page: &mut [u8], at: usize, counts: Counts) -> usize
    ensures { Filled page.old at (columns (count_columns counts) at) result page.new }
{
    let p = first_counts(page, at, counts.actual, counts.estimated);
    last_counts(
        page,
        p,
        counts.final_substituted,
        counts.substituted,
        counts.null,
    )
}

// A day by its number in the file, what its values add up to, and how many of them have which quality.
pub fn row(
    page: &mut [u8],
    at: usize,
    day: usize,
    channel: usize,
    nmi: &[u8],
    suffix: &[u8],
    date: u64,
    minutes: u64,
    sum: u64,
    unit: &[u8],
    counts: Counts,
) -> usize
    ensures { Filled page.old at (row_text day channel nmi.now suffix.now date minutes sum unit.now counts at) result page.new }
{
    let p = numbers(page, at, day, channel);
    let q = names(page, p, nmi, suffix, date);
    let r = amounts(page, q, minutes, sum, unit);
    qualities(page, r, counts)
}
