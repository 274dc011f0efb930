// Columns of a table: what stands before a place of the line is filled with spaces.
ghost use Rattle.std.specs.Prelude.{◌-◌};
ghost use Rattle.page.specs.Filled.{Filled};
ghost use Rattle.phrase.specs.Phrases.{blank, cell_text, right_text, point_text};

use page::texts::{number, part, put, value};
use text::digits::digits_len;

// At most 80 of them.
pub fn spaces(page: &mut [u8], at: usize, n: usize) -> usize
    ensures { Filled page.old at (blank n) result page.new }
{
    put(page, at, part(&[b' '; 80], 0, n))
}

// Spaces up to a place of the line.
fn column(page: &mut [u8], at: usize, to: usize) -> usize
    ensures { Filled page.old at (blank (to - at)) result page.new }
{
    spaces(page, at, to.saturating_sub(at))
}

// A text that starts at a place of the line.
pub fn cell(page: &mut [u8], at: usize, to: usize, text: &[u8]) -> usize
    ensures { Filled page.old at (cell_text to text.now at) result page.new }
{
    let p = column(page, at, to);
    put(page, p, text)
}

// A number whose last digit stands before a place of the line.
pub fn right(page: &mut [u8], at: usize, to: usize, n: u64) -> usize
    ensures { Filled page.old at (right_text to n at) result page.new }
{
    let p = column(page, at, to.saturating_sub(digits_len(n)));
    number(page, p, n)
}

// Millionths as a decimal whose point stands at a place of the line, or would stand there.
pub fn point(page: &mut [u8], at: usize, to: usize, v: u64) -> usize
    ensures { Filled page.old at (point_text to v at) result page.new }
{
    let p = column(page, at, to.saturating_sub(digits_len(v / 1000000)));
    value(page, p, v)
}
