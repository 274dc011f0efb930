// The line in which each answer is given, and the outputs of a map behind it.
ghost use Rattle.std.specs.Prelude.{◌≤◌, ◌<◌};
ghost use Rattle.page.specs.Filled.{Filled};
ghost use Rattle.page.specs.Texts.{texts};
ghost use Rattle.answer_lines.specs.Lines.{line_of};
ghost use Rattle.tenants.specs.Calls.{versioned_as};
ghost use Rattle.map_calls.specs.Lines.{key_text, output_text};

use answer_lines::answers::{accepted, refusal};
use calls::kept;
use format::Refusal;
use page::items::u16_at;
use page::texts::{number, part, put};

pub fn versioned(page: &mut [u8], at: usize, x: Result<usize, Refusal>) -> usize
    ensures { Filled page.old at (line_of (versioned_as x)) result page.new }
{
    match x {
        Ok(v) => accepted(page, at, &[v as u64]),
        Err(x) => refusal(page, at, x),
    }
}

// A key, or a dash for the key of an output that is not used.
#[tactic(auto, unfolding(crate::specs::Lines::key_text))]
fn put_key(page: &mut [u8], at: usize, key: &[u8]) -> usize
    ensures { Filled page.old at (key_text key.now) result page.new }
{
    if kept::bytes(key, 0, 0) {
        put(page, at, b"-")
    } else {
        put(page, at, key)
    }
}

// Output i of a map.
fn output(page: &mut [u8], at: usize, i: usize, keys: &[u8], shares: &[u16]) -> usize
    requires { i < 128 }
    ensures { Filled page.old at (output_text keys.now shares.now i) result page.new }
{
    let a = 12 * i;
    let p = put(page, at, b" ");
    let q = put_key(page, p, part(keys, a, a + 12));
    let s = put(page, q, b"/");
    number(page, s, u16_at(shares, i) as u64)
}

// The first n outputs.
pub fn outputs(page: &mut [u8], at: usize, n: usize, keys: &[u8], shares: &[u16]) -> usize
    requires { n ≤ 128 }
    ensures { Filled page.old at (texts (output_text keys.now shares.now) n) result page.new }
{
    let mut p = at;
    for i in 0..n {
        p = output(page, p, i, keys, shares);
    }
    p
}
