// What a field has to be by the table of units, where that is what is wrong: the units that are known, and how many decimals a value in one of them has.
ghost use Rattle.std.specs.Prelude.{◌≡◌, length};
ghost use Rattle.format.specs.Numbers.{behind};
ghost use Rattle.format.specs.Units.{units as Units·units, unit_name};
ghost use Rattle.page.specs.Filled.{Filled};
ghost use Rattle.page.specs.Texts.{texts};
ghost use Rattle.refusals.specs.Hints.{comma_before, listed as Hints·listed, known_units, at_most, too_many};

use leaf::bytes::first_at;
use page::texts::{number, part, put};
use phrase::counts::counted;

// A unit's name, as the table spells it.
fn unit_name(page: &mut [u8], at: usize, unit: u8) -> usize
    ensures { Filled page.old at (unit_name unit) result page.new }
{
    let s = units::name(unit);
    let bytes = s.bytes;
    put(page, at, part(&bytes, 0, s.length))
}

// What parts a unit's name from the one before it.
fn comma_before(page: &mut [u8], at: usize, unit: u8) -> usize
    ensures { Filled page.old at (comma_before unit) result page.new }
{
    if unit == 0 {
        put(page, at, b"")
    } else {
        put(page, at, b", ")
    }
}

fn listed(page: &mut [u8], at: usize, unit: u8) -> usize
    ensures { Filled page.old at (Hints·listed unit) result page.new }
{
    let p = comma_before(page, at, unit);
    unit_name(page, p, unit)
}

// The names of all units, in the order of the table.
fn unit_names(page: &mut [u8], at: usize) -> usize
    ensures { Filled page.old at (texts Hints·listed (length Units·units)) result page.new }
{
    // How many there are is for `units` to know, so the numbers are tried in turn.
    let mut p = at;
    let mut unit: u8 = 0;
    while units::is_unit(unit) {
        p = listed(page, p, unit);
        unit += 1;
    }
    p
}

// The units that are known.
pub fn known_units(page: &mut [u8], at: usize) -> usize
    ensures { Filled page.old at known_units result page.new }
{
    let p = put(page, at, b"units that are known: ");
    let q = unit_names(page, p);
    put(page, q, b" (in letters of either case)")
}

// How many decimals a value in the unit has at most.
fn at_most(page: &mut [u8], at: usize, unit: u8) -> usize
    ensures { Filled page.old at (at_most unit) result page.new }
{
    let p = put(page, at, b"a value in ");
    let q = unit_name(page, p, unit);
    let r = put(page, q, b" has at most ");
    counted(page, r, units::decimals(unit) as u64, b"decimal")
}

// How many stand behind the point of a value.
fn decimals_in(value: &[u8]) -> usize
    ensures { result ≡ length (behind value.now) }
{
    let p = first_at(value, b'.');
    if p < value.len() {
        value.len() - p - 1
    } else {
        0
    }
}

// How many a value in the unit has at most, and how many this one has.
pub fn decimals(page: &mut [u8], at: usize, unit: u8, value: &[u8]) -> usize
    ensures { Filled page.old at (too_many unit value.now) result page.new }
{
    let p = at_most(page, at, unit);
    let q = put(page, p, b", and this one has ");
    number(page, q, decimals_in(value) as u64)
}
