// The lists that a day is lent in: whether they are long enough, and five of them that together hold the marks of a day's intervals: one element of each for each interval.
#![tactic(auto)]

ghost use Rattle.std.specs.Prelude.{◌≡◌, ◌≤◌, ◌-◌, length, replicate};
ghost use Rattle.std.proofs.lemmas.List.Edits.{sets};
ghost use Rattle.format.specs.Day.{five, enough_for};
ghost use Rattle.lists.specs.Lists.{stored, Roomy};

use format::Tag;

// None of six lists of these lengths is shorter than n. It takes the lengths and not the lists, so that no list is lent before all are known to be long enough.
#[tactic(auto, unfolding(format::specs::Day::enough_for))]
pub fn enough(n: usize, v: usize, f: usize, m: usize, r: usize, s: usize, l: usize) -> bool
    ensures { result ≡ enough_for n v f m r s l }
{
    n <= v && n <= f && n <= m && n <= r && n <= s && n <= l
}

// Puts the tag at the places from..to of each list.
pub fn put_tag(
    t: Tag,
    from: usize,
    to: usize,
    flags: &mut [u8],
    methods: &mut [u8],
    reasons: &mut [u16],
    starts: &mut [usize],
    lengths: &mut [usize],
)
    requires { (from ≤ to) × Roomy to (five flags.old methods.old reasons.old starts.old lengths.old) }
    ensures { five flags.new methods.new reasons.new starts.new lengths.new ≡ stored (five flags.old methods.old reasons.old starts.old lengths.old) from (replicate (to - from) t) }
{
    flags[from..to].fill(t.flag);
    methods[from..to].fill(t.method);
    reasons[from..to].fill(t.reason);
    starts[from..to].fill(t.start);
    lengths[from..to].fill(t.length);
}
