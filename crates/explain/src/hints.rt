// What would be right where a refusal stands: how many fields, which units, how many decimals.
ghost use Rattle.std.specs.Prelude.{◌≡◌};
ghost use Rattle.page.specs.Filled.{Filled};
ghost use Rattle.phrase.specs.Phrases.{line_text};
ghost use Rattle.refusals.specs.Hints.{known_units};
ghost use Rattle.explain.specs.Said.{counts_line, is_unit_field, is_interval, is_value_field, unit_for, decimals_line, unit_line, hint as Said·hint};

use format::Refusal;
use page::texts::{part, put};
use quick_values::is_value;
use records::{Record, UNIT_OF_200, UNIT_OF_250, channel_before, field, n_before, unit_in};
use refusals::counts;
use refusals::hints::{decimals, known_units};
use rows::count_of;

// The number of a 250's quantity.
const QUANTITY: usize = 19;

// How many fields there are and have to be.
fn counts_line(page: &mut [u8], at: usize, file: &[u8], place: usize, r: Record) -> usize
    ensures { Filled page.old at (counts_line file.now place r) result page.new }
{
    let p = counts(page, at, r.count, count_of(r.kind, n_before(file, place)));
    put(page, p, b"\n")
}

// Whether the field of a number is a unit.
fn is_unit_field(kind: u64, number: usize) -> bool
    ensures { result ≡ is_unit_field kind number }
{
    match kind {
        200 => number == UNIT_OF_200,
        250 => number == UNIT_OF_250,
        _ => false,
    }
}

// Whether the field of a number is an interval's value, in a 300 that has so many. Two fields stand before the values, and five behind them.
fn is_interval(number: usize, count: usize) -> bool
    ensures { result ≡ is_interval number count }
{
    3 <= number && 4 < count.saturating_sub(number)
}

// Whether it is a value, in a record of the kind.
fn is_value_field(kind: u64, number: usize, count: usize) -> bool
    ensures { result ≡ is_value_field kind number count }
{
    match kind {
        250 => number == QUANTITY,
        300 => is_interval(number, count),
        _ => false,
    }
}

// The unit of a record's values: a 250 names its own, and a 300 has that of the 200 before it.
fn unit_for(file: &[u8], place: usize, r: Record) -> u8
    ensures { result ≡ unit_for file.now place r }
{
    if r.kind == 250 {
        unit_in(part(file, r.start, r.end), UNIT_OF_250)
    } else {
        unit_in(channel_before(file, place), UNIT_OF_200)
    }
}

fn units_line(page: &mut [u8], at: usize) -> usize
    ensures { Filled page.old at (line_text known_units) result page.new }
{
    let p = known_units(page, at);
    put(page, p, b"\n")
}

// How many decimals a field has and may have in the unit, where it is a value but for them.
fn decimals_line(page: &mut [u8], at: usize, unit: u8, value: &[u8]) -> usize
    ensures { Filled page.old at (decimals_line unit value.now) result page.new }
{
    if is_value(value, 6) {
        let p = decimals(page, at, unit, value);
        return put(page, p, b"\n");
    }
    put(page, at, b"")
}

// What the table of units says of the field at fault.
fn unit_line(page: &mut [u8], at: usize, file: &[u8], x: Refusal, r: Record) -> usize
    ensures { Filled page.old at (unit_line file.now x r) result page.new }
{
    if is_unit_field(r.kind, x.field) {
        return units_line(page, at);
    }
    if is_value_field(r.kind, x.field, r.count) {
        return decimals_line(
            page,
            at,
            unit_for(file, x.place, r),
            field(part(file, r.start, r.end), x.field),
        );
    }
    put(page, at, b"")
}

// What would be right, where more can be said of it than the number says.
pub fn hint(page: &mut [u8], at: usize, file: &[u8], x: Refusal, r: Record) -> usize
    ensures { Filled page.old at (Said·hint file.now x r) result page.new }
{
    match x.number {
        5 => counts_line(page, at, file, x.place, r),
        6 => unit_line(page, at, file, x, r),
        _ => put(page, at, b""),
    }
}
