// Eight bytes looked at together: where among them the first comma stands.
#![tactic(auto)]

ghost use Rattle.std.specs.Prelude.{◌≡◌, ◌/◌, ◌≤◌, true, length, ◌==◌, nat_lt};
ghost use Rattle.std.specs.Int.Count.{count_trailing_zeros};
ghost use Rattle.ground.specs.Lists.{all, span_of, other};
ghost use Rattle.eights.specs.Words.{number};

use std::num::wrapping_add_u64;

// Eight bytes as one number, the first of them lowest. Put together by shifts the compiler reads them at once; `from_le_bytes` wants an array, and the bytes
// are a part of the file.
fn word(t: &[u8]) -> u64
    requires { length t.now ≡ 8 }
    ensures is { result ≡ number t.now }
    ensures bytes { all (λ b. nat_lt b 256) t.now ≡ true }
{
    t[0] as u64
        | (t[1] as u64) << 8
        | (t[2] as u64) << 16
        | (t[3] as u64) << 24
        | (t[4] as u64) << 32
        | (t[5] as u64) << 40
        | (t[6] as u64) << 48
        | (t[7] as u64) << 56
}

// A mark in the byte of the first comma of eight, and none below it; 0 where there is no comma. Where a comma stands, v has a byte of ones: 1 added to it
// carries, and its top bit goes from 1 to 0. What it carries may mark bytes above it, so the lowest mark alone tells.
pub fn comma_marks(t: &[u8]) -> u64
    requires { length t.now ≡ 8 }
    ensures some { (result == 0) ≡ all (other 44) t.now }
    ensures first { count_trailing_zeros 64 result / 8 ≡ span_of (other 44) t.now }
{
    let v = word(t) ^ 0xd3d3_d3d3_d3d3_d3d3;
    v & !wrapping_add_u64(v, 0x0101_0101_0101_0101) & 0x8080_8080_8080_8080
}

// In which of the eight bytes the lowest mark stands; 8 where there is no mark.
pub fn lowest_mark(marks: u64) -> usize
    ensures is { result ≡ count_trailing_zeros 64 marks / 8 }
    ensures within { result ≤ 8 }
{
    (u64::trailing_zeros(marks) / 8) as usize
}
