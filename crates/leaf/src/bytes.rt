// What the rules of texts are made of: spaces at their ends, the first of a byte, the same bytes.
ghost use Rattle.std.specs.Prelude.{◌≡◌, ◌≤◌, length};
ghost use Rattle.ground.specs.Lists.{span_of, other, same};
ghost use Rattle.format.specs.Bytes.{end_space, is_text};

// A space at either end.
fn end_space(f: &[u8]) -> bool
    ensures { result ≡ end_space f.now }
{
    f.first() == Some(&b' ') || f.last() == Some(&b' ')
}

// least to most bytes with no space at either end. The bytes themselves are looked at once for the whole record.
pub fn text(f: &[u8], least: usize, most: usize) -> bool
    ensures { result ≡ is_text least most f.now }
{
    least <= f.len() && f.len() <= most && !end_space(f)
}

// The place of the first x, or the length where there is none.
pub fn first_at(f: &[u8], x: u8) -> usize
    ensures is { result ≡ span_of (other x) f.now }
    ensures within { result ≤ length f.now }
{
    f.iter().position(|b| *b == x).unwrap_or(f.len())
}

// The same bytes.
pub fn same_bytes(f: &[u8], g: &[u8]) -> bool
    ensures { result ≡ same f.now g.now }
{
    f == g
}
