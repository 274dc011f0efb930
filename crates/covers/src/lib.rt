// The 400s that cover a day, measured and then written: a record for each of the longest runs of intervals with one mark.
#![tactic(auto)]

ghost use Rattle.std.specs.Prelude.{◌≡◌, true, ◌++◌, ◌+◌, ◌≤◌, ◌<◌, length};
ghost use Rattle.ground.specs.Room.{Put};
ghost use Rattle.format.specs.Day.{five};
ghost use Rattle.format.specs.Block.{run_text};
ghost use Rattle.fit.specs.Tags.{mark_of, marks_from, fit_tag};
ghost use Rattle.covers.specs.Cover.{cover_from, RunEnds, Marked, Sized, span_text};

use fit::tag_at;
use format::Tag;
use marks::{mark_len, put_mark, same_mark};
use text::bytes::{put_byte, put_bytes};
use text::digits::{digits_len, put_dec};

// The bytes and the records of a day's 400s, or of its whole block.
#[derive(Clone, Copy)]
pub struct Size {
    pub bytes: usize,
    pub records: usize,
}

// Where the run ends that begins with interval i.
fn run_end(
    flags: &[u8],
    methods: &[u8],
    reasons: &[u16],
    starts: &[usize],
    lengths: &[usize],
    text: &[u8],
    n: usize,
    i: usize,
) -> usize
    requires { Marked (five flags.now methods.now reasons.now starts.now lengths.now) text.now n × (i < n) }
    ensures { RunEnds (marks_from (five flags.now methods.now reasons.now starts.now lengths.now) text.now) n i result }
{
    let a = tag_at(flags, methods, reasons, starts, lengths, i);
    for j in i + 1..n {
        let b = tag_at(flags, methods, reasons, starts, lengths, j);
        if !same_mark(text, a, b) {
            return j;
        }
    }
    n
}

// The record of the intervals behind the first a up to e.
fn run_len(a: usize, e: usize, text: &[u8], t: Tag) -> usize
    requires { (fit_tag text.now t ≡ true) × (a < e) × (e ≤ 288) }
    ensures { (result ≡ length (run_text a e (mark_of text.now t))) × (result ≤ 400) }
{
    let s = digits_len(a as u64 + 1);
    let w = digits_len(e as u64);
    s + w + mark_len(text, t) + 8
}

// Its indicator and its two intervals.
fn put_span(room: &mut [u8], at: usize, a: usize, e: usize) -> usize
    requires { (at + length (span_text a e) ≤ length room.old) × (a < e) × (e ≤ 288) }
    ensures { Put room.old at (span_text a e) result room.new }
{
    let p1 = put_bytes(room, at, b"400,");
    let p2 = put_dec(room, p1, a as u64 + 1);
    let p3 = put_byte(room, p2, b',');
    let p4 = put_dec(room, p3, e as u64);
    put_byte(room, p4, b',')
}

fn put_run(room: &mut [u8], at: usize, a: usize, e: usize, text: &[u8], t: Tag) -> usize
    requires { (fit_tag text.now t ≡ true) × (a < e) × (e ≤ 288) × (at + length (run_text a e (mark_of text.now t)) ≤ length room.old) }
    ensures { Put room.old at (run_text a e (mark_of text.now t)) result room.new }
{
    let p1 = put_span(room, at, a, e);
    let p2 = put_mark(room, p1, text, t);
    put_bytes(room, p2, b"\r\n")
}

// How many bytes and records the 400s of the first n intervals are.
pub fn measure_runs(
    flags: &[u8],
    methods: &[u8],
    reasons: &[u16],
    starts: &[usize],
    lengths: &[usize],
    text: &[u8],
    n: usize,
) -> Size
    requires { Marked (five flags.now methods.now reasons.now starts.now lengths.now) text.now n }
    ensures { Sized (marks_from (five flags.now methods.now reasons.now starts.now lengths.now) text.now) n result.bytes result.records }
{
    let mut bytes: usize = 0;
    let mut records: usize = 0;
    let mut i: usize = 0;
    while i < n {
        let e = run_end(flags, methods, reasons, starts, lengths, text, n, i);
        let t = tag_at(flags, methods, reasons, starts, lengths, i);
        bytes += run_len(i, e, text, t);
        records += 1;
        i = e;
    }
    Size { bytes, records }
}

// Writes the 400s of the first n intervals.
pub fn put_runs(
    room: &mut [u8],
    at: usize,
    flags: &[u8],
    methods: &[u8],
    reasons: &[u16],
    starts: &[usize],
    lengths: &[usize],
    text: &[u8],
    n: usize,
) -> usize
    requires marked { Marked (five flags.now methods.now reasons.now starts.now lengths.now) text.now n }
    requires n_in_bounds { at + length (cover_from (marks_from (five flags.now methods.now reasons.now starts.now lengths.now) text.now) n 0) ≤ length room.old }
    ensures { Put room.old at (cover_from (marks_from (five flags.now methods.now reasons.now starts.now lengths.now) text.now) n 0) result room.new }
{
    let mut p = at;
    let mut i: usize = 0;
    while i < n {
        let e = run_end(flags, methods, reasons, starts, lengths, text, n, i);
        let t = tag_at(flags, methods, reasons, starts, lengths, i);
        p = put_run(room, p, i, e, text, t);
        i = e;
    }
    p
}
