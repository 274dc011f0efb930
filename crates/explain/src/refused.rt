// What is said of a refusal: what it means, where it stands, what would be right, and the record's line with a mark under the place.
ghost use Rattle.std.specs.Prelude.{◌≡◌};
ghost use Rattle.page.specs.Filled.{Filled};
ghost use Rattle.explain.specs.Said.{has_place, marked_text, shown_line, place_text, explanation_as, explanation, told_place, told as Said·told};

use super::hints::hint;
use format::Refusal;
use page::texts::{part, put};
use records::{Record, record_of};
use refusals::excerpts::{excerpt, mark};
use refusals::headline;
use refusals::places::whereabouts;

// Whether the number comes with a place in the file.
fn has_place(number: u64) -> bool
    ensures { result ≡ has_place number }
{
    matches!(number, 2..14)
}

fn marked(page: &mut [u8], at: usize, line: &[u8], column: usize) -> usize
    ensures { Filled page.old at (marked_text line.now column) result page.new }
{
    let p = excerpt(page, at, line, column);
    let q = put(page, p, b"\n");
    let r = mark(page, q, column);
    put(page, r, b"\n")
}

// The line, where there is something of it.
fn shown_line(page: &mut [u8], at: usize, line: &[u8], column: usize) -> usize
    ensures { Filled page.old at (shown_line line.now column) result page.new }
{
    if line.is_empty() {
        put(page, at, b"")
    } else {
        marked(page, at, line, column)
    }
}

// Where a refusal stands, which is in the record r; its place is told as y has it.
fn place_text(page: &mut [u8], at: usize, file: &[u8], x: Refusal, y: Refusal, r: Record) -> usize
    ensures { Filled page.old at (place_text file.now x y r) result page.new }
{
    let p = whereabouts(page, at, y, r.kind, r.count);
    let q = put(page, p, b"\n");
    let s = hint(page, q, file, x, r);
    shown_line(
        page,
        s,
        part(file, r.start, r.end),
        x.place.saturating_sub(r.start),
    )
}

// All that is said of a refusal x of a file, with its place told as y has it: a block's refusal is looked at behind its 200, and told from the block's start.
pub fn explained_as(page: &mut [u8], at: usize, file: &[u8], x: Refusal, y: Refusal) -> usize
    ensures { Filled page.old at (explanation_as file.now x y) result page.new }
{
    let p = headline(page, at, x.number);
    let q = put(page, p, b"\n");
    if has_place(x.number) {
        place_text(page, q, file, x, y, record_of(file, x.place))
    } else {
        put(page, q, b"")
    }
}

// The same, with its own place.
pub fn explained(page: &mut [u8], at: usize, file: &[u8], x: Refusal) -> usize
    ensures { Filled page.old at (explanation file.now x) result page.new }
{
    explained_as(page, at, file, x, x)
}

// Where it stands, in the line that says what it means.
fn told_place(page: &mut [u8], at: usize, file: &[u8], x: Refusal) -> usize
    ensures { Filled page.old at (told_place file.now x) result page.new }
{
    if has_place(x.number) {
        let found = record_of(file, x.place);
        let p = put(page, at, b", ");
        return whereabouts(page, p, x, found.kind, found.count);
    }
    put(page, at, b"")
}

// A refusal in one line, for one of several files.
pub fn told(page: &mut [u8], at: usize, file: &[u8], x: Refusal) -> usize
    ensures { Filled page.old at (Said·told file.now x) result page.new }
{
    let p = headline(page, at, x.number);
    told_place(page, p, file, x)
}
