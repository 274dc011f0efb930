// A record's line cut to 80 columns, and a mark under a place of it.
ghost use Rattle.std.specs.Prelude.{◌≡◌, length};
ghost use Rattle.page.specs.Filled.{Filled};
ghost use Rattle.refusals.specs.Excerpts.{shown as Excerpts·shown, shown_text, dots as Excerpts·dots, shown_from, shown_to, excerpt as Excerpts·excerpt, lead as Excerpts·lead, mark as Excerpts·mark};

use page::texts::{part, put};
use phrase::columns::spaces;

// A byte as it can be shown.
fn shown(b: u8) -> u8
    ensures { result ≡ Excerpts·shown b }
{
    match b {
        b' '..=b'~' => b,
        _ => b'?',
    }
}

fn put_shown(page: &mut [u8], at: usize, text: &[u8]) -> usize
    ensures { Filled page.old at (shown_text text.now) result page.new }
{
    let mut p = at;
    for b in text {
        p = put(page, p, &[shown(*b)]);
    }
    p
}

// Dots where something of the line is left out.
fn dots(page: &mut [u8], at: usize, cut: bool) -> usize
    ensures { Filled page.old at (Excerpts·dots cut) result page.new }
{
    if cut {
        put(page, at, b"...")
    } else {
        put(page, at, b"")
    }
}

// From where the line is shown, so that the column stands among the first 60.
fn shown_from(column: usize) -> usize
    ensures { result ≡ shown_from column }
{
    if column < 60 { 0 } else { column - 40 }
}

// Up to where, so that what is shown has at most 80 columns with its dots.
fn shown_to(from: usize, length: usize) -> usize
    ensures { result ≡ shown_to from «length» }
{
    if length.saturating_sub(from) <= 77 {
        length
    } else {
        from + 74
    }
}

// What is shown of a record's line, where a column of it matters.
pub fn excerpt(page: &mut [u8], at: usize, record: &[u8], column: usize) -> usize
    ensures { Filled page.old at (Excerpts·excerpt «record».now column) result page.new }
{
    let from = shown_from(column);
    let to = shown_to(from, record.len());
    let p = dots(page, at, 0 < from);
    let q = put_shown(page, p, part(record, from, to));
    dots(page, q, to < record.len())
}

// How many columns stand on the line before the first that is shown.
fn lead(from: usize) -> usize
    ensures { result ≡ Excerpts·lead from }
{
    if 0 < from { 3 } else { 0 }
}

// The mark on the line below.
pub fn mark(page: &mut [u8], at: usize, column: usize) -> usize
    ensures { Filled page.old at (Excerpts·mark column) result page.new }
{
    let from = shown_from(column);
    let p = spaces(page, at, lead(from));
    let q = spaces(page, p, column - from);
    put(page, q, b"^")
}
