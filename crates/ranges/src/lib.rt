// Ranges of bytes as two lists, where each begins and how long it is: whether they lie apart, and how many bytes they have. A range of no bytes may stand
// anywhere.
#![tactic(auto)]

ghost use Rattle.std.specs.Prelude.{◌≡◌, ◌+◌, ◌≤◌, ◌<◌, length, get_or, drop};
ghost use Rattle.ground.specs.Lists.{sum as Lists·sum};
ghost use Rattle.store.specs.Ranges.{inside as Ranges·inside, apart as Ranges·apart, clear as Ranges·clear, laid as Ranges·laid};

// The sum of two numbers of 32 bits fits 64.
#[tactic(auto, unfolding(store::specs::Ranges::inside))]
fn inside(m: usize, o: u32, n: u32) -> bool
    ensures { result ≡ Ranges·inside m o n }
{
    n == 0 || o as usize + n as usize <= m
}

// Most often one lies before the other, so that is asked first.
#[tactic(auto, unfolding(store::specs::Ranges::apart))]
fn apart(o: u32, n: u32, p: u32, k: u32) -> bool
    ensures { result ≡ Ranges·apart o n p k }
{
    u64::from(o) + u64::from(n) <= u64::from(p)
        || u64::from(p) + u64::from(k) <= u64::from(o)
        || n == 0
        || k == 0
}

// Range i has no byte in common with those behind it. They are gone over by their places: a zip of the two lists would be no shorter, and the proof would hang on its chain.
fn clear(places: &[u32], lengths: &[u32], i: usize) -> bool
    requires { (length places.now ≡ length lengths.now) × (i < length places.now) }
    ensures { result ≡ Ranges·clear (get_or places.now i 0) (get_or lengths.now i 0) (drop (i + 1) places.now) (drop (i + 1) lengths.now) }
{
    let o = places[i];
    let n = lengths[i];
    for j in i + 1..places.len() {
        if !apart(o, n, places[j], lengths[j]) {
            return false;
        }
    }
    true
}

// Each range lies in the first m bytes, and no two have a byte in common.
pub fn laid(m: usize, places: &[u32], lengths: &[u32]) -> bool
    ensures { result ≡ Ranges·laid m places.now lengths.now }
{
    if places.len() != lengths.len() {
        return false;
    }
    for (i, o) in places.iter().enumerate() {
        if !inside(m, *o, lengths[i]) || !clear(places, lengths, i) {
            return false;
        }
    }
    true
}

// How many bytes the ranges have, which lie apart.
pub fn sum(lengths: &[u32]) -> usize
    requires { length lengths.now ≤ 64 }
    ensures { result ≡ Lists·sum lengths.now }
{
    lengths.iter().map(|n| *n as usize).sum()
}
