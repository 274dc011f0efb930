// What the channels of a file add up to, as lines of a table.
#![tactic(auto)]

ghost use Rattle.std.specs.Prelude.{◌≡◌, ◌-◌, ◌≤◌, length, drop};
ghost use Rattle.format.specs.Cut.{lines, fields};
ghost use Rattle.page.specs.Filled.{Filled};
ghost use Rattle.channel.specs.Places.{inside};
ghost use Rattle.phrase.specs.Phrases.{line_text};
ghost use Rattle.tables.specs.Totals.{headings as Totals·headings};
ghost use Rattle.channel_rows.specs.Rows.{days_ahead, channel_row, channel_text};

use channel::Channel;
use lines::line_end;
use page::texts::{part, put};
use records::{NMI, SUFFIX, UNIT_OF_200, UNIT_OF_250, field};
use says::kind_at;
use tables::totals::{headings, row};

pub fn headed(page: &mut [u8]) -> usize
    ensures { Filled page.old 0 (line_text Totals·headings) result page.new }
{
    let p = headings(page, 0);
    put(page, p, b"\n")
}

// How many 300s stand from a place on, up to the next 200.
fn days_from(file: &[u8], start: usize) -> usize
    requires { start ≤ length file.now }
    ensures { result ≡ days_ahead (lines (drop start file.now)) }
{
    let mut at = start;
    let mut days: usize = 0;
    loop {
        let e = line_end(file, at);
        if e == file.len() {
            return days;
        }
        let kind = kind_at(file, at, e);
        if kind == 200 {
            return days;
        }
        at = e + 2;
        if kind == 300 {
            days += 1;
        }
    }
}

// The row of channel k, whose record is given.
fn channel_row(
    page: &mut [u8],
    k: usize,
    record: &[u8],
    unit: usize,
    days: usize,
    total: u64,
) -> usize
    ensures { Filled page.old 0 (channel_row k (fields «record».now) (unit - 1) days total) result page.new }
{
    let p = row(
        page,
        0,
        k,
        field(record, NMI),
        field(record, SUFFIX),
        field(record, unit),
        days,
        total,
    );
    put(page, p, b"\n")
}

// The row of channel k, which stands at a place of the file.
pub fn placed(page: &mut [u8], file: &[u8], k: usize, place: Option<Channel>, total: u64) -> usize
    requires { inside file.now place }
    ensures { Filled page.old 0 (channel_text file.now k place total) result page.new }
{
    let Some(found) = place else {
        return put(page, 0, b"");
    };
    match found {
        Channel::Days(a, e) => channel_row(
            page,
            k,
            part(file, a, e),
            UNIT_OF_200,
            days_from(file, e + 2),
            total,
        ),
        Channel::Quantity(a, e) => channel_row(page, k, part(file, a, e), UNIT_OF_250, 0, total),
    }
}
