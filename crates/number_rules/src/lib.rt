// The rules of whole numbers, one function a rule, each answer what the meaning says of the field's bytes: indicator, start and end, interval length, reason.
#![tactic(auto)]

ghost use Rattle.std.specs.Prelude.{◌≡◌};
ghost use Rattle.format.specs.Numbers.{interval_of, is_length, length_of, intervals_of, reason_of};
ghost use Rattle.format.specs.Records.{is_kind, indicator_of};

use leaf::digits::{digits, small};

fn is_kind(k: u64) -> bool
    ensures { result ≡ is_kind k }
{
    matches!(k, 100 | 200 | 250 | 300 | 400 | 500 | 550 | 900)
}

// The kind of record that a first field names.
pub fn indicator(f: &[u8]) -> Option<u64>
    ensures { result ≡ indicator_of f.now }
{
    let k = digits(f, 3, 3)?;
    is_kind(k).then_some(k)
}

// A 400's start or end.
pub fn interval(f: &[u8]) -> Option<u64>
    ensures { result ≡ interval_of f.now }
{
    small(f, 4)
}

fn is_length(m: u64) -> bool
    ensures { result ≡ is_length m }
{
    matches!(m, 5 | 15 | 30)
}

pub fn interval_length(f: &[u8]) -> Option<u64>
    ensures { result ≡ length_of f.now }
{
    let m = small(f, 2)?;
    is_length(m).then_some(m)
}

// How many intervals a day has, 0 where m minutes are no interval length.
pub fn intervals(m: u64) -> usize
    ensures { result ≡ intervals_of m }
{
    match m {
        5 => 288,
        15 => 96,
        30 => 48,
        _ => 0,
    }
}

// A reason, 65535 where the field is empty.
pub fn reason(f: &[u8]) -> Option<u64>
    ensures { result ≡ reason_of f.now }
{
    if f.len() == 0 {
        return Some(65535);
    }
    small(f, 3)
}
