// Sixteen values of the commonest shape, a digit, a point and three digits, with a comma behind each: seen at once, by loops without an early exit over 96
// bytes, of which the compiler makes vector code.
#![tactic(auto)]

ghost use Rattle.std.specs.Prelude.{◌≡◌, true, ◌+◌, ◌≤◌, ◌<◌, ◌^◌, length};
ghost use Rattle.ground.specs.Lists.{part};
ghost use Rattle.format.specs.Records.{millionths};
ghost use Rattle.quick_values.specs.Shapes.{is_thousandths};
ghost use Rattle.lumps.specs.Lumps.{no_less, Alike};

// Each byte of s is at least the byte of t at its place.
fn no_less(s: &[u8], t: &[u8]) -> bool
    requires { length s.now ≡ length t.now }
    ensures { result ≡ no_less s.now t.now }
{
    let mut ok = true;
    for (i, b) in s.iter().enumerate() {
        if *b < t[i] {
            ok = false;
        }
    }
    ok
}

// Sixteen such values stand at x. Two commas are looked at first, since in most files without such values one of them is missing.
pub fn sixteen(file: &[u8], x: usize) -> bool
    requires { x + 96 ≤ length file.now }
    ensures { result ≡ true → Alike file.now x 16 }
{
    if file[x + 5] != b',' || file[x + 95] != b',' {
        return false;
    }
    let z = x + 96;
    let s = &file[x..z];
    no_less(
        s,
        b"0.000,0.000,0.000,0.000,0.000,0.000,0.000,0.000,0.000,0.000,0.000,0.000,0.000,0.000,0.000,0.000,",
    ) && no_less(
        b"9.999,9.999,9.999,9.999,9.999,9.999,9.999,9.999,9.999,9.999,9.999,9.999,9.999,9.999,9.999,9.999,",
        s,
    )
}

// The number of a digit, a point and three digits, in millionths. The four digits are taken as bytes, and what four zeros come to so is taken off at once.
pub fn thousand(f: &[u8]) -> u64
    requires { is_thousandths f.now ≡ true }
    ensures is { result ≡ millionths f.now }
    ensures small { result < 10 ^ 13 }
{
    (f[0] as u64 * 1000 + f[2] as u64 * 100 + f[3] as u64 * 10 + f[4] as u64 - 53328) * 1000
}
