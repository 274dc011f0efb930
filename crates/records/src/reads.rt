// The fields of a 250 that are shown of a read, found in one pass over its record.
ghost use Rattle.std.specs.Prelude.{◌≤◌, length};
ghost use Rattle.records.specs.Reads.{Found, IsRead};

use day::fields::skip;
use lines::pieces::field_at;

// A field as a part of its record, and where the field behind it starts.
#[derive(Clone, Copy)]
pub struct Place {
    pub from: usize,
    pub to: usize,
    pub next: usize,
}

#[derive(Clone, Copy)]
pub struct Read {
    pub nmi: Place,
    pub suffix: Place,
    pub previous: Place,
    pub current: Place,
    pub quality: Place,
    pub reason: Place,
    pub description: Place,
    pub quantity: Place,
    pub unit: Place,
}

// The field behind n more from a place on.
fn field_behind(record: &[u8], at: usize, n: usize) -> Place
    requires { at ≤ length «record».now }
    ensures { Found «record».now at n result }
{
    let end = record.len();
    let from = skip(record, at, end, n);
    let f = field_at(record, from, end);
    Place {
        from,
        to: f.to,
        next: f.next,
    }
}

// Its fields 2, 5, 10 and 15 to 20.
pub fn read_of(record: &[u8]) -> Read
    ensures { IsRead «record».now result }
{
    let nmi = field_behind(record, 0, 1);
    let suffix = field_behind(record, nmi.next, 2);
    let previous = field_behind(record, suffix.next, 4);
    let current = field_behind(record, previous.next, 4);
    let quality = field_behind(record, current.next, 0);
    let reason = field_behind(record, quality.next, 0);
    let description = field_behind(record, reason.next, 0);
    let quantity = field_behind(record, description.next, 0);
    let unit = field_behind(record, quantity.next, 0);
    Read {
        nmi,
        suffix,
        previous,
        current,
        quality,
        reason,
        description,
        quantity,
        unit,
    }
}
