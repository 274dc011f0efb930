// Counts, and words in quotes.
ghost use Rattle.page.specs.Filled.{Filled};
ghost use Rattle.phrase.specs.Phrases.{quoted_text, plural_text, counted_text};

use page::texts::{number, put};

pub fn quoted(page: &mut [u8], at: usize, text: &[u8]) -> usize
    ensures { Filled page.old at (quoted_text text.now) result page.new }
{
    let p = put(page, at, b"'");
    let q = put(page, p, text);
    put(page, q, b"'")
}

// The s of things that are not one.
fn plural(page: &mut [u8], at: usize, n: u64) -> usize
    ensures { Filled page.old at (plural_text n) result page.new }
{
    if n == 1 {
        put(page, at, b"")
    } else {
        put(page, at, b"s")
    }
}

// A number and what it counts.
pub fn counted(page: &mut [u8], at: usize, n: u64, what: &[u8]) -> usize
    ensures { Filled page.old at (counted_text n what.now) result page.new }
{
    let p = number(page, at, n);
    let q = put(page, p, b" ");
    let r = put(page, q, what);
    plural(page, r, n)
}
