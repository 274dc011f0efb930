// Digits, and the number that they write.
ghost use Rattle.std.specs.Prelude.{◌≡◌, min};
ghost use Rattle.format.specs.Numbers.{number_of, leading_zero, small_of};

// The number that least to most digits write, of which no more than 14 are read.
pub fn digits(f: &[u8], least: usize, most: usize) -> Option<u64>
    ensures { result ≡ number_of least (min most 14) f.now }
{
    let n = f.len();
    if n < least {
        return None;
    }
    if most < n {
        return None;
    }
    if 14 < n {
        return None;
    }
    let mut v: u64 = 0;
    for &b in f {
        if b < 48 {
            return None;
        }
        if 57 < b {
            return None;
        }
        v = v * 10 + u64::from(b - b'0');
    }
    Some(v)
}

// A zero with more behind it.
fn leading(f: &[u8]) -> bool
    ensures { result ≡ leading_zero f.now }
{
    f.len() > 1 && f[0] == b'0'
}

// 1 to most digits without a leading zero, of which no more than 14 are read.
pub fn small(f: &[u8], most: usize) -> Option<u64>
    ensures { result ≡ small_of (min most 14) f.now }
{
    if leading(f) {
        return None;
    }
    digits(f, 1, most)
}
