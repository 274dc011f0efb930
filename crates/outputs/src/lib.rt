// Entries of a tenant map: those that adding takes, in lent lists; those in the form that adding keeps, in memory.
#![tactic(auto)]

ghost use Rattle.std.specs.Prelude.{◌≡◌, ◌&&◌, ◌≤◌, ◌<◌, length, take};
ghost use Rattle.ground.specs.Lists.{all};
ghost use Rattle.entries.specs.Little.{number_at};
ghost use Rattle.entries.specs.Keys.{in_capitals};
ghost use Rattle.tenants.specs.Outputs.{output, is_channel, is_empty, fit_output, is_kept, outputs_given, outputs_in};
ghost use Rattle.outputs.specs.Taken.{kept_byte, taken_by};

use classes::{Class, are_all};
use leaf::bytes::same_bytes;

// How many outputs the board has.
const OUTPUTS: usize = 128;

// The highest share.
const HIGHEST: u16 = 1000;

// Ten letters or digits of an NMI and two of a suffix are twelve of them.
fn is_channel(key: &[u8]) -> bool
    ensures { result ≡ is_channel key.now }
{
    are_all(key, Class::Alnum, 12, 12)
}

fn is_empty(key: &[u8]) -> bool
    ensures { result ≡ is_empty key.now }
{
    same_bytes(key, b"\0\0\0\0\0\0\0\0\0\0\0\0")
}

// An entry of whose key it is known whether it is a good one.
#[tactic(auto, unfolding(crate::specs::Taken::taken_by))]
fn is_taken(good: bool, key: &[u8], share: u16) -> bool
    ensures { result ≡ taken_by good key.now share }
{
    share <= HIGHEST && (good || share == 0 && is_empty(key))
}

fn is_fit(key: &[u8], share: u16) -> bool
    ensures { result ≡ fit_output (output key.now share) }
{
    is_taken(is_channel(key), key, share)
}

// Adding takes every one of the 128 entries.
pub fn are_fit(keys: &[u8], shares: &[u16]) -> bool
    requires { (1536 ≤ length keys.now) × (128 ≤ length shares.now) }
    ensures { result ≡ all fit_output (outputs_given 128 keys.now shares.now) }
{
    for i in 0..OUTPUTS {
        let a = 12 * i;
        let e = a + 12;
        if !is_fit(&keys[a..e], shares[i]) {
            return false;
        }
    }
    true
}

// A digit or a capital letter.
#[tactic(auto, using(crate::proofs::Channels::kept_is))]
fn is_kept_byte(b: u8) -> bool
    ensures { result ≡ kept_byte b }
{
    b.is_ascii_digit() || b.is_ascii_uppercase()
}

fn are_kept_bytes(key: &[u8]) -> bool
    ensures { result ≡ all kept_byte key.now }
{
    key.iter().all(|b| is_kept_byte(*b))
}

// One look at each byte: a map is read whole at every call.
fn is_kept_channel(key: &[u8]) -> bool
    ensures { result ≡ is_channel key.now && in_capitals key.now }
{
    key.len() == 12 && are_kept_bytes(key)
}

// The share in an entry's bytes.
pub fn share_in(entry: &[u8]) -> u16
    requires { length entry.now ≡ 14 }
    ensures { result ≡ number_at entry.now 12 2 }
{
    u16::from_le_bytes([entry[12], entry[13]])
}

fn is_kept(entry: &[u8]) -> bool
    requires { length entry.now ≡ 14 }
    ensures { result ≡ is_kept (output (take 12 entry.now) (number_at entry.now 12 2)) }
{
    let key = &entry[..12];
    is_taken(is_kept_channel(key), key, share_in(entry))
}

// Every one of the 128 entries is in the form that adding keeps.
pub fn are_kept(entries: &[u8]) -> bool
    requires { length entries.now ≡ 1792 }
    ensures { result ≡ all is_kept (outputs_in 128 entries.now) }
{
    for i in 0..OUTPUTS {
        let a = 14 * i;
        let e = a + 14;
        if !is_kept(&entries[a..e]) {
            return false;
        }
    }
    true
}
