// Whether each used slot of a store has a key of its own.
#![tactic(auto)]

ghost use Rattle.std.specs.Prelude.{◌≡◌, true, cond, ◌+◌, ◌≤◌, ◌<◌, length};
ghost use Rattle.ground.specs.Lists.{all, same};
ghost use Rattle.entries.specs.Little.{piece};
ghost use Rattle.store.specs.Used.{used};
ghost use Rattle.store.specs.Store.{other_key, pairwise, used_slots};
ghost use Rattle.store.proofs.Walks.{used_behind};
ghost use Rattle.own_keys.specs.Dates.{Dated, Passed};

use leaf::bytes::same_bytes;
use little::{piece_at, u32_at};
use slots::{place, read_dates};
use store::Header;
use used_map::is_used;

// The same k bytes from two places on.
fn same_pieces(memory: &[u8], a: usize, b: usize, k: usize) -> bool
    ensures { result ≡ same (piece memory.now a k) (piece memory.now b k) }
{
    same_bytes(piece_at(memory, a, k), piece_at(memory, b, k))
}

// Slots i and j have different keys.
#[tactic(auto, unfolding(store::specs::Store::other_key, entries::specs::Keys::same_key, entries::specs::Entries::key_at))]
fn have_other_keys(memory: &[u8], h: Header, i: u32, j: u32) -> bool
    ensures { result ≡ other_key memory.now h i j }
{
    let a = place(h, i);
    let b = place(h, j);
    u32_at(memory, a + 12) != u32_at(memory, b + 12)
        || !same_pieces(memory, a, b, 10)
        || !same_pieces(memory, a + 10, b + 10, 2)
}

fn is_free_or_other(memory: &[u8], h: Header, i: u32, j: u32) -> bool
    ensures { result ≡ cond (used h.map j) (other_key memory.now h i j) true }
{
    !is_used(h.map, j) || have_other_keys(memory, h, i, j)
}

// The first slot from slot `from` on that has slot i's date, or the number of slots where none has. A loop of its own, since it is what each two slots cost.
fn next_of_date(dates: &[u32], n: u32, i: u32, from: u32) -> u32
    requires { (n ≤ length dates.now) × (i < n) × (from ≤ n) }
    ensures { Passed dates.now i from n result }
{
    let date = dates[i as usize];
    for j in from..n {
        if dates[j as usize] == date {
            return j;
        }
    }
    n
}

// The used slot i has another key than each used one from slot `from` on. Slots of other dates have other keys.
fn is_other_behind(memory: &[u8], h: Header, dates: &[u32], i: u32, from: u32) -> bool
    requires { Dated memory.now h dates.now × (used h.map i ≡ true) × (i < h.slots) × (from ≤ h.slots) }
    ensures { result ≡ all (other_key memory.now h i) (used_behind h.map h.slots from) }
{
    let n = h.slots;
    let mut j = next_of_date(dates, n, i, from);
    while j < n {
        if !is_free_or_other(memory, h, i, j) {
            return false;
        }
        j = next_of_date(dates, n, i, j + 1);
    }
    true
}

fn is_free_or_own(memory: &[u8], h: Header, dates: &[u32], i: u32) -> bool
    requires { Dated memory.now h dates.now × (i < h.slots) }
    ensures { result ≡ cond (used h.map i) (all (other_key memory.now h i) (used_behind h.map h.slots (i + 1))) true }
{
    !is_used(h.map, i) || is_other_behind(memory, h, dates, i, i + 1)
}

fn are_all_own(memory: &[u8], h: Header, dates: &[u32]) -> bool
    requires { Dated memory.now h dates.now }
    ensures { result ≡ pairwise (other_key memory.now h) (used_slots h) }
{
    for i in 0..h.slots {
        if !is_free_or_own(memory, h, dates, i) {
            return false;
        }
    }
    true
}

// The list is lent to work in.
fn are_all_own_with(memory: &[u8], h: Header, dates: &mut [u32]) -> bool
    requires { (h.slots ≤ 64) × (length dates.old ≡ 64) }
    ensures { result ≡ pairwise (other_key memory.now h) (used_slots h) }
{
    read_dates(memory, h, h.map, dates);
    are_all_own(memory, h, dates)
}

pub fn all_own_keys(memory: &[u8], h: Header) -> bool
    requires { h.slots ≤ 64 }
    ensures { result ≡ pairwise (other_key memory.now h) (used_slots h) }
{
    let mut dates: [u32; 64] = [0; 64];
    are_all_own_with(memory, h, &mut dates)
}
