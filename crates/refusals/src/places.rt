// Where a refusal stands: byte, record and field, from document 01's numbers.
ghost use Rattle.page.specs.Filled.{Filled};
ghost use Rattle.refusals.specs.Places.{spot as Places·spot, of_kind, bracketed, of_field, whereabouts as Places·whereabouts};

use format::Refusal;
use page::texts::{number, put};
use words::fields::name;

fn spot(page: &mut [u8], at: usize, place: usize, record: usize) -> usize
    ensures { Filled page.old at (Places·spot place «record») result page.new }
{
    let p = put(page, at, b"at byte ");
    let q = number(page, p, place as u64);
    let r = put(page, q, b", record ");
    number(page, r, record as u64)
}

// A record's kind, where it has one.
fn of_kind(page: &mut [u8], at: usize, kind: u64) -> usize
    ensures { Filled page.old at (of_kind kind) result page.new }
{
    if kind == 0 {
        return put(page, at, b"");
    }
    let p = put(page, at, b" (a ");
    let q = number(page, p, kind);
    put(page, q, b")")
}

fn bracketed_name(page: &mut [u8], at: usize, kind: u64, field: usize, count: usize) -> usize
    ensures { Filled page.old at (bracketed kind field count) result page.new }
{
    let p = put(page, at, b" (");
    let q = name(page, p, kind, field, count);
    put(page, q, b")")
}

// A field's number and name, where one is meant.
fn of_field(page: &mut [u8], at: usize, kind: u64, field: usize, count: usize) -> usize
    ensures { Filled page.old at (of_field kind field count) result page.new }
{
    if field == 0 {
        return put(page, at, b"");
    }
    let p = put(page, at, b", field ");
    let q = number(page, p, field as u64);
    bracketed_name(page, q, kind, field, count)
}

// The place of a refusal in a record of a kind that has so many fields.
pub fn whereabouts(page: &mut [u8], at: usize, x: Refusal, kind: u64, count: usize) -> usize
    ensures { Filled page.old at (Places·whereabouts x kind count) result page.new }
{
    let p = spot(page, at, x.place, x.record);
    let q = of_kind(page, p, kind);
    of_field(page, q, kind, x.field, count)
}
