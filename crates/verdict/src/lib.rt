// What the check of a file says, and the status that goes with it.
#![tactic(auto)]

ghost use Rattle.std.specs.Prelude.{◌≡◌};
ghost use Rattle.page.specs.Filled.{Filled};
ghost use Rattle.format.specs.Answers.{checked_as};
ghost use Rattle.verdict.specs.Verdicts.{contents_text, accepted_text, refusal_text, check_text, status_of};

use explain::refused::{explained, told};
use format::{Checked, Refusal};
use page::texts::{number, put};
use phrase::counts::counted;

// So many channels and days.
fn contents(page: &mut [u8], at: usize, channels: usize, days: usize) -> usize
    ensures { Filled page.old at (contents_text channels days) result page.new }
{
    let p = counted(page, at, channels as u64, b"channel");
    let q = put(page, p, b", ");
    let r = counted(page, q, days as u64, b"day");
    put(page, r, b"\n")
}

fn accepted(page: &mut [u8], at: usize, version: u64, channels: usize, days: usize) -> usize
    ensures { Filled page.old at (accepted_text version channels days) result page.new }
{
    let p = put(page, at, b"accepted: NEM");
    let q = number(page, p, version);
    let r = put(page, q, b", ");
    contents(page, r, channels, days)
}

fn refused(page: &mut [u8], at: usize, file: &[u8], x: Refusal, several: bool) -> usize
    ensures { Filled page.old at (refusal_text several file.now x) result page.new }
{
    if several {
        let p = told(page, at, file, x);
        return put(page, p, b"\n");
    }
    explained(page, at, file, x)
}

// The place behind what was said, and the status: 0 where the file is accepted, 1 where it is refused.
#[derive(Clone, Copy)]
pub struct Verdict {
    pub next: usize,
    pub status: u8,
}

// The answer of a file's check in words: a line behind its name where there are several files.
pub fn said(
    page: &mut [u8],
    at: usize,
    file: &[u8],
    x: Result<Checked, Refusal>,
    several: bool,
) -> Verdict
    ensures says { Filled page.old at (check_text several file.now (checked_as x)) result.next page.new }
    ensures status { result.status ≡ status_of (checked_as x) }
{
    match x {
        Ok(c) => Verdict {
            next: accepted(page, at, c.version, c.channels, c.days),
            status: 0,
        },
        Err(y) => Verdict {
            next: refused(page, at, file, y, several),
            status: 1,
        },
    }
}
