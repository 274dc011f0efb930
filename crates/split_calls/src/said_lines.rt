// The line in which an answer is given, and the parts of the outputs behind it.
ghost use Rattle.page.specs.Filled.{Filled};
ghost use Rattle.page.specs.Texts.{texts};
ghost use Rattle.answer_lines.specs.Lines.{line_of};
ghost use Rattle.splits.specs.Calls.{split_as};
ghost use Rattle.split_calls.specs.Lines.{part_text};

use answer_lines::answers::{accepted, refusal};
use format::Refusal;
use page::items::u64_at;
use page::texts::{number, put};

pub fn split(page: &mut [u8], at: usize, x: Result<usize, Refusal>) -> usize
    ensures { Filled page.old at (line_of (split_as x)) result page.new }
{
    match x {
        Ok(outputs) => accepted(page, at, &[outputs as u64]),
        Err(x) => refusal(page, at, x),
    }
}

// Output i's part.
#[tactic(auto, unfolding(crate::specs::Lines::part_text))]
fn part(page: &mut [u8], at: usize, i: usize, parts: &[u64]) -> usize
    ensures { Filled page.old at (part_text parts.now i) result page.new }
{
    let p = put(page, at, b" ");
    number(page, p, u64_at(parts, i))
}

// The parts of the first n outputs.
pub fn parts(page: &mut [u8], at: usize, n: usize, parts: &[u64]) -> usize
    ensures { Filled page.old at (texts (part_text parts.now) n) result page.new }
{
    let mut p = at;
    for i in 0..n {
        p = part(page, p, i, parts);
    }
    p
}
