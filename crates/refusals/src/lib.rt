// A refusal for a person to act on, line by line: what it means, where it stands, what would be right, the record's line, and a mark under the place.
#![tactic(auto)]

pub mod excerpts;
pub mod hints;
pub mod places;

ghost use Rattle.page.specs.Filled.{Filled};
ghost use Rattle.refusals.specs.Places.{headline as Places·headline, counts as Places·counts};

use page::texts::{number, put};
use phrase::counts::counted;
use words::refusals::meaning;

// The number, and what it means.
pub fn headline(page: &mut [u8], at: usize, refusal: u64) -> usize
    ensures { Filled page.old at (Places·headline refusal) result page.new }
{
    let p = put(page, at, b"refused: ");
    let q = number(page, p, refusal);
    let r = put(page, q, b", ");
    meaning(page, r, refusal)
}

// How many fields there are and how many there have to be, where that is what is wrong.
pub fn counts(page: &mut [u8], at: usize, count: usize, asked: usize) -> usize
    ensures { Filled page.old at (Places·counts count asked) result page.new }
{
    let p = put(page, at, b"this record has ");
    let q = counted(page, p, count as u64, b"field");
    let r = put(page, q, b", and has to have ");
    number(page, r, asked as u64)
}
