// A total shared out by weights: each weight's part rounded down, and what remains one each to the largest remainders, the lower place first when equal.
#![tactic(auto)]

ghost use Rattle.std.specs.Prelude.{◌≡◌, ◌≤◌, ◌<◌, length, ltb, leb};
ghost use Rattle.std.proofs.lemmas.List.Edits.{sets};
ghost use Rattle.shares.specs.Shares.{count, ahead, remainders, leftover, part_of, parts_of};
ghost use Rattle.shares.specs.Steps.{Ready, Rounded};

// How many are larger than x. The tests' values are summed, since `count` over `filter` jumps at each element.
fn larger(rs: &[u64], x: u64) -> usize
    ensures is { result ≡ count (ltb x) rs.now }
    ensures most { result ≤ length rs.now }
{
    rs.iter().map(|r| usize::from(x < *r)).sum()
}

// How many are x or larger.
fn as_large(rs: &[u64], x: u64) -> usize
    ensures is { result ≡ count (leb x) rs.now }
    ensures most { result ≤ length rs.now }
{
    rs.iter().map(|r| usize::from(x <= *r)).sum()
}

// How many come before place i: of the lower ones those that are equal too, so that each of the others is looked at once.
fn before(rs: &[u64], i: usize) -> usize
    requires { (i < length rs.now) × (length rs.now ≤ 128) }
    ensures { result ≡ ahead rs.now i }
{
    let x = rs[i];
    let lower = &rs[..i];
    let higher = &rs[i + 1..];
    as_large(lower, x) + larger(higher, x)
}

// Puts the remainders into `rs`, and answers what remains when every part is rounded down.
fn put_remainders(total: u64, divisor: u64, ws: &[u64], rs: &mut [u64]) -> u64
    requires { Ready total divisor ws.now × (length rs.old ≡ length ws.now) }
    ensures left { result ≡ leftover total ws.now }
    ensures rests { rs.new ≡ remainders total ws.now }
{
    let mut left = total;
    for (i, w) in ws.iter().enumerate() {
        let x = total * *w;
        rs[i] = x % divisor;
        left -= x / divisor;
    }
    left
}

// The part of place i.
fn part_at(total: u64, divisor: u64, left: u64, ws: &[u64], rs: &[u64], i: usize) -> u64
    requires { Rounded total divisor left ws.now rs.now × (i < length ws.now) }
    ensures { result ≡ part_of total ws.now i }
{
    let part = total * ws[i] / divisor;
    // What remains never reaches a remainder of 0, and most outputs are on another channel.
    if rs[i] == 0 {
        return part;
    }
    if (before(rs, i) as u64) < left {
        return part + 1;
    }
    part
}

// Puts each part.
fn put_parts(total: u64, divisor: u64, left: u64, ws: &[u64], rs: &[u64], parts: &mut [u64])
    requires { Rounded total divisor left ws.now rs.now × (length ws.now ≤ length parts.old) }
    ensures { parts.new ≡ sets parts.old 0 (parts_of total ws.now) }
{
    for i in 0..ws.len() {
        parts[i] = part_at(total, divisor, left, ws, rs, i);
    }
}

// The total shared out by 128 weights, whose sum is the divisor.
pub fn share_out(total: u64, divisor: u64, ws: &[u64], parts: &mut [u64])
    requires { Ready total divisor ws.now × (length ws.now ≡ 128) × (128 ≤ length parts.old) }
    ensures { parts.new ≡ sets parts.old 0 (parts_of total ws.now) }
{
    let mut rs: [u64; 128] = [0; 128];
    let left = put_remainders(total, divisor, ws, &mut rs);
    put_parts(total, divisor, left, ws, &rs, parts);
}
