// What is counted in the bytes of a version's entries, for those who look at a tenant map: outputs in use, channels, and a channel's outputs and shares. Reading
// is total: bytes that the entries lack count as 0.
#![tactic(auto)]

ghost use Rattle.std.specs.Prelude.{◌≡◌, ◌≤◌, ◌<◌};
ghost use Rattle.map_counts.specs.Counts.{key_of, share_of, is_used, one_used, used_in, one_on, outputs_on, share_on, shares_on, is_first, one_first, channels_in};

use leaf::bytes::same_bytes;
use little::{number_at, piece_at};

// How many outputs the board has.
pub const OUTPUTS: u32 = 128;

// The key of an output: NMI and suffix, or twelve 0 bytes.
pub fn key_at(entries: &[u8], i: u32) -> &[u8]
    ensures { result.now ≡ key_of entries.now i }
{
    piece_at(entries, 14 * i as usize, 12)
}

pub fn share_at(entries: &[u8], i: u32) -> u64
    ensures { (result ≡ share_of entries.now i) × (result < 65536) }
{
    number_at(entries, 14 * i as usize + 12, 2)
}

pub fn is_used(entries: &[u8], i: u32) -> bool
    ensures { result ≡ is_used entries.now i }
{
    !same_bytes(key_at(entries, i), b"\0\0\0\0\0\0\0\0\0\0\0\0")
}

// ---- outputs in use

#[tactic(auto, unfolding(crate::specs::Counts::one_used))]
fn one_used(entries: &[u8], i: u32) -> u64
    ensures { (result ≡ one_used entries.now i) × (result ≤ 1) }
{
    u64::from(is_used(entries, i))
}

pub fn used(entries: &[u8]) -> u64
    ensures { result ≡ used_in entries.now }
{
    let mut n: u64 = 0;
    for i in 0..OUTPUTS {
        n += one_used(entries, i);
    }
    n
}

// ---- a channel

#[tactic(auto, unfolding(crate::specs::Counts::one_on))]
fn one_on(entries: &[u8], key: &[u8], i: u32) -> u64
    ensures { (result ≡ one_on entries.now key.now i) × (result ≤ 1) }
{
    u64::from(same_bytes(key_at(entries, i), key))
}

// How many of the first outputs have the key.
fn first_on(entries: &[u8], key: &[u8], first: u32) -> u64
    ensures { result ≡ outputs_on entries.now key.now first }
{
    let mut n: u64 = 0;
    for i in 0..first {
        n += one_on(entries, key, i);
    }
    n
}

// How many of all.
pub fn outputs_on(entries: &[u8], key: &[u8]) -> u64
    ensures { result ≡ outputs_on entries.now key.now 128 }
{
    first_on(entries, key, OUTPUTS)
}

#[tactic(auto, unfolding(crate::specs::Counts::share_on))]
fn share_on(entries: &[u8], key: &[u8], i: u32) -> u64
    ensures { (result ≡ share_on entries.now key.now i) × (result ≤ 65535) }
{
    if same_bytes(key_at(entries, i), key) {
        share_at(entries, i)
    } else {
        0
    }
}

// What their shares add up to.
pub fn shares_on(entries: &[u8], key: &[u8]) -> u64
    ensures { result ≡ shares_on entries.now key.now }
{
    let mut sum: u64 = 0;
    for i in 0..OUTPUTS {
        sum += share_on(entries, key, i);
    }
    sum
}

// ---- channels

// The output is in use, and the first of its channel.
#[tactic(auto, unfolding(crate::specs::Counts::is_first))]
pub fn is_first(entries: &[u8], i: u32) -> bool
    ensures { result ≡ is_first entries.now i }
{
    is_used(entries, i) && first_on(entries, key_at(entries, i), i) == 0
}

#[tactic(auto, unfolding(crate::specs::Counts::one_first))]
fn one_first(entries: &[u8], i: u32) -> u64
    ensures { (result ≡ one_first entries.now i) × (result ≤ 1) }
{
    u64::from(is_first(entries, i))
}

pub fn channels(entries: &[u8]) -> u64
    ensures { result ≡ channels_in entries.now }
{
    let mut n: u64 = 0;
    for i in 0..OUTPUTS {
        n += one_first(entries, i);
    }
    n
}
