// The marks of a day, put into the five lists: on a V day those of its 400s, each over its own intervals, else the 300's own.
#![tactic(auto)]

ghost use Rattle.std.specs.Prelude.{◌≡◌, true, ◌≤◌, length};
ghost use Rattle.ground.specs.Lists.{part};
ghost use Rattle.format.specs.Cut.{fields};
ghost use Rattle.format.specs.Records.{last_in};
ghost use Rattle.format.specs.Day.{row_at, tag_at, five};
ghost use Rattle.lists.specs.Lists.{stored, Roomy};
ghost use Rattle.passing.specs.Sound.{covers_from};
ghost use Rattle.day.specs.Places.{runs_at};
ghost use Rattle.day_marks.specs.Marks.{run_tags, tags_for, is_covered};

use day::fields::skip;
use format::Tag;
use lines::line_end;
use lines::pieces::field_at;
use lists::put_tag;
use says::{interval_at, tag_at};

// A 400: the last of its intervals, and their mark.
#[derive(Clone, Copy)]
pub struct Marked {
    pub to: usize,
    pub tag: Tag,
}

fn marked_at(file: &[u8], a: usize, e: usize) -> Marked
    requires { (a ≤ e) × (e ≤ length file.now) }
    ensures to { result.to ≡ last_in (fields (part file.now a e)) }
    ensures tag { result.tag ≡ tag_at 400 (row_at a (part file.now a e)) 3 }
{
    let x = skip(file, a, e, 2);
    let f = field_at(file, x, e);
    let y = f.next;
    Marked {
        to: interval_at(file, x, e),
        tag: tag_at(file, y, e, 400),
    }
}

// The marks of the 400s from a place on, which cover n intervals. Each 400 starts where the one before it ended, so its start need not be read.
fn put_cover(
    file: &[u8],
    start: usize,
    n: usize,
    flags: &mut [u8],
    methods: &mut [u8],
    reasons: &mut [u16],
    starts: &mut [usize],
    lengths: &mut [usize],
)
    requires { (start ≤ length file.now) × (covers_from 0 n (runs_at file.now start) ≡ true) × Roomy n (five flags.old methods.old reasons.old starts.old lengths.old) }
    ensures { five flags.new methods.new reasons.new starts.new lengths.new ≡ stored (five flags.old methods.old reasons.old starts.old lengths.old) 0 (run_tags (runs_at file.now start)) }
{
    let mut at = start;
    let mut k: usize = 0;
    while k < n {
        let e = line_end(file, at);
        let Marked { to, tag } = marked_at(file, at, e);
        at = e + 2;
        put_tag(tag, k, to, flags, methods, reasons, starts, lengths);
        k = to;
    }
}

// The marks of a day of n intervals whose 300 has the mark t and ends before `start`.
pub fn put_marks(
    file: &[u8],
    t: Tag,
    start: usize,
    n: usize,
    flags: &mut [u8],
    methods: &mut [u8],
    reasons: &mut [u16],
    starts: &mut [usize],
    lengths: &mut [usize],
)
    requires { (start ≤ length file.now) × (is_covered t n (runs_at file.now start) ≡ true) × Roomy n (five flags.old methods.old reasons.old starts.old lengths.old) }
    ensures { five flags.new methods.new reasons.new starts.new lengths.new ≡ stored (five flags.old methods.old reasons.old starts.old lengths.old) 0 (tags_for t n (runs_at file.now start)) }
{
    if t.flag == b'V' {
        put_cover(file, start, n, flags, methods, reasons, starts, lengths);
    } else {
        put_tag(t, 0, n, flags, methods, reasons, starts, lengths);
    }
}
