// A field as RFC 4180 has it.
ghost use Rattle.std.specs.Prelude.{[], ◌∷◌};
ghost use Rattle.page.specs.Filled.{Filled};
ghost use Rattle.cells.specs.Cells.{twice, doubled, quoted, cell_text};

use leaf::bytes::first_at;
use page::texts::put;

const QUOTE: u8 = b'"';

// One byte, stored as it is: put as a slice, each byte of a field would be a call of its own.
fn one(page: &mut [u8], at: usize, b: u8) -> usize
    ensures { Filled page.old at (b ∷ []) result page.new }
{
    if page.len() <= at {
        return at;
    }
    page[at] = b;
    at + 1
}

// A byte of a quoted field.
fn byte(page: &mut [u8], at: usize, b: u8) -> usize
    ensures { Filled page.old at (twice b) result page.new }
{
    if b == QUOTE {
        let p = one(page, at, QUOTE);
        one(page, p, QUOTE)
    } else {
        one(page, at, b)
    }
}

// The text with each of its quotes written twice.
fn double(page: &mut [u8], at: usize, text: &[u8]) -> usize
    ensures { Filled page.old at (doubled text.now) result page.new }
{
    let mut p = at;
    for b in text {
        p = byte(page, p, *b);
    }
    p
}

fn quote(page: &mut [u8], at: usize, text: &[u8]) -> usize
    ensures { Filled page.old at (quoted text.now) result page.new }
{
    let p = one(page, at, QUOTE);
    let q = double(page, p, text);
    one(page, q, QUOTE)
}

// As it is where it has no quote, which is nearly always.
pub fn cell(page: &mut [u8], at: usize, text: &[u8]) -> usize
    ensures { Filled page.old at (cell_text text.now) result page.new }
{
    if first_at(text, QUOTE) == text.len() {
        put(page, at, text)
    } else {
        quote(page, at, text)
    }
}
