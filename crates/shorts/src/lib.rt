// A value of at most three digits before its point and at most three behind it, read in one pass from its first byte to the comma behind it. It is read by
// tests and not in a loop, so that the compiler knows how many digits there are wherever it matters.
#![tactic(auto)]

ghost use Rattle.std.specs.Prelude.{◌≡◌, ◌+◌, ◌-◌, ◌*◌, ◌≤◌, ◌<◌, ◌^◌, length};
ghost use Rattle.shorts.specs.Shapes.{Whole, Pointed, Complete, Shown};

use classes::is_digit;

// Digits on the way to a number: n is the number that they write where each byte counts as itself, and `zeros` what zeros in their places come to so. One
// subtraction at the end makes digits of all of them.
#[derive(Clone, Copy)]
pub struct Digits {
    pub n: u64,
    pub zeros: u64,
}

// A value, in millionths, and where the next field starts; the record's end where there is none.
#[derive(Clone, Copy)]
pub struct Valued {
    pub v: u64,
    pub next: usize,
}

// One digit more.
fn more(d: Digits, b: u8) -> Digits
    requires { (d.n < 10 ^ 12) × (d.zeros ≤ d.n) × (48 ≤ b) × (b ≤ 57) }
    ensures is { (result.n ≡ d.n * 10 + b) × (result.zeros ≡ d.zeros * 10 + 48) }
    ensures low { result.zeros ≤ result.n }
    ensures small { result.n ≤ d.n * 10 + 57 }
{
    Digits {
        n: d.n * 10 + b as u64,
        zeros: d.zeros * 10 + 48,
    }
}

// The value from a up to q, if a comma follows; its last digit stands for so many millionths.
fn ended(file: &[u8], a: usize, e: usize, q: usize, d: Digits, unit: u64) -> Option<Valued>
    requires { Complete file.now a e q ((d.n - d.zeros) * unit) × (d.zeros ≤ d.n) }
    ensures { Shown file.now a e result }
{
    if file[q] != 44 {
        return None;
    }
    Some(Valued {
        v: (d.n - d.zeros) * unit,
        next: q + 1,
    })
}

// Up to q stand digits and a point.
fn fraction(file: &[u8], a: usize, e: usize, q: usize, d: Digits) -> Option<Valued>
    requires { Pointed file.now a q 0 d.n d.zeros × (d.n < 10 ^ 5) × (q + 4 ≤ e) × (e ≤ length file.now) }
    ensures { Shown file.now a e result }
{
    let b1 = file[q];
    if !is_digit(b1) {
        return None;
    }
    let d1 = more(d, b1);
    let q1 = q + 1;
    let b2 = file[q1];
    if !is_digit(b2) {
        return ended(file, a, e, q1, d1, 100000);
    }
    let d2 = more(d1, b2);
    let q2 = q1 + 1;
    let b3 = file[q2];
    if !is_digit(b3) {
        return ended(file, a, e, q2, d2, 10000);
    }
    ended(file, a, e, q2 + 1, more(d2, b3), 1000)
}

// Up to q stand three digits.
fn behind_three(file: &[u8], a: usize, e: usize, q: usize, d: Digits) -> Option<Valued>
    requires { Whole file.now a q d.n d.zeros × (d.n < 10 ^ 5) × (q + 5 ≤ e) × (e ≤ length file.now) }
    ensures { Shown file.now a e result }
{
    if file[q] == 46 {
        return fraction(file, a, e, q + 1, d);
    }
    ended(file, a, e, q, d, 1000000)
}

// The value at a, if it is such a one. A point is looked for before a digit, since most values have one behind their first digits.
pub fn short_at(file: &[u8], a: usize, e: usize) -> Option<Valued>
    requires { (a + 8 ≤ e) × (e ≤ length file.now) }
    ensures { Shown file.now a e result }
{
    let b1 = file[a];
    if !is_digit(b1) {
        return None;
    }
    let d1 = more(Digits { n: 0, zeros: 0 }, b1);
    let q1 = a + 1;
    let b2 = file[q1];
    if b2 == 46 {
        return fraction(file, a, e, q1 + 1, d1);
    }
    if !is_digit(b2) {
        return ended(file, a, e, q1, d1, 1000000);
    }
    let d2 = more(d1, b2);
    let q2 = q1 + 1;
    let b3 = file[q2];
    if b3 == 46 {
        return fraction(file, a, e, q2 + 1, d2);
    }
    if !is_digit(b3) {
        return ended(file, a, e, q2, d2, 1000000);
    }
    behind_three(file, a, e, q2 + 1, more(d2, b3))
}
