// Which marks a day that is handed in may have: those that a single 400 may carry, each description inside the lent text.
#![tactic(auto)]

ghost use Rattle.std.specs.Prelude.{◌≡◌, ◌&&◌, suc};
ghost use Rattle.ground.specs.Lists.{all};
ghost use Rattle.format.specs.Bytes.{field_byte};
ghost use Rattle.format.specs.Texts.{is_description};
ghost use Rattle.format.specs.Day.{five};
ghost use Rattle.format.specs.Block.{fit_quality, fit_reason};
ghost use Rattle.text.specs.Inside.{inside};
ghost use Rattle.fit.specs.Tags.{tag_from, fit_fields, fit_tag, fit_marks, Long};

use format::Tag;
use quality_rules::across;
use quality_rules::flags::{stands_alone, takes_method};
use text_rules::description;

// A quality that a 400 may carry.
#[tactic(auto, unfolding(format::specs::Block::fit_quality))]
fn fit_quality(flag: u8, method: u8) -> bool
    ensures { result ≡ fit_quality flag method }
{
    if stands_alone(400, flag) {
        method == 255
    } else {
        takes_method(flag) && method < 100
    }
}

#[tactic(auto, unfolding(format::specs::Block::fit_reason))]
fn fit_reason(reason: u16) -> bool
    ensures { result ≡ fit_reason reason }
{
    reason == 65535 || reason < 1000
}

#[tactic(auto, unfolding(format::specs::Bytes::field_byte))]
fn is_field_byte(b: u8) -> bool
    ensures { result ≡ field_byte b }
{
    (b' '..=b'~').contains(&b) && b != b','
}

fn are_field_bytes(f: &[u8]) -> bool
    ensures { result ≡ all field_byte f.now }
{
    f.iter().all(|b| is_field_byte(*b))
}

fn fit_description(f: &[u8]) -> bool
    ensures { result ≡ (is_description f.now && all field_byte f.now) }
{
    description(f) && are_field_bytes(f)
}

// The sum of start and length may be too large for a word, so it is not taken before both are known to be small.
#[tactic(auto, unfolding(text::specs::Inside::inside))]
fn is_inside(text: &[u8], s: usize, n: usize) -> bool
    ensures { result ≡ inside text.now s n }
{
    n == 0 || (n <= text.len() && s <= text.len() - n)
}

// The rules of single fields, without the description's own.
#[tactic(auto, unfolding(crate::specs::Tags::fit_fields))]
fn fit_fields(t: Tag) -> bool
    ensures { result ≡ fit_fields t }
{
    fit_quality(t.flag, t.method) && fit_reason(t.reason) && across(t.flag, t.reason, t.length)
}

// A tag whose mark a 400 may carry.
fn fit_tag(text: &[u8], t: Tag) -> bool
    ensures { result ≡ fit_tag text.now t }
{
    let s = t.start;
    let n = t.length;
    fit_fields(t) && (n == 0 || (is_inside(text, s, n) && fit_description(&text[s..s + n])))
}

// Interval i of the five lists.
pub fn tag_at(
    flags: &[u8],
    methods: &[u8],
    reasons: &[u16],
    starts: &[usize],
    lengths: &[usize],
    i: usize,
) -> Tag
    requires { Long (suc i) (five flags.now methods.now reasons.now starts.now lengths.now) }
    ensures { result ≡ tag_from (five flags.now methods.now reasons.now starts.now lengths.now) i }
{
    Tag {
        flag: flags[i],
        method: methods[i],
        reason: reasons[i],
        start: starts[i],
        length: lengths[i],
    }
}

pub fn fit_marks(
    flags: &[u8],
    methods: &[u8],
    reasons: &[u16],
    starts: &[usize],
    lengths: &[usize],
    text: &[u8],
    n: usize,
) -> bool
    requires { Long n (five flags.now methods.now reasons.now starts.now lengths.now) }
    ensures { result ≡ fit_marks (five flags.now methods.now reasons.now starts.now lengths.now) text.now n }
{
    for i in 0..n {
        let t = tag_at(flags, methods, reasons, starts, lengths, i);
        if !fit_tag(text, t) {
            return false;
        }
    }
    true
}
