// The fields of a record from left to right, each a part of the file itself.
ghost use Rattle.std.specs.Prelude.{◌≡◌, ◌+◌, ◌≤◌, length, drop};
ghost use Rattle.ground.specs.Lists.{span_of, other, part};
ghost use Rattle.format.specs.Cut.{fields, field};
ghost use Rattle.lines.specs.Places.{Cut};

use eights::{comma_marks, lowest_mark};

// How many bytes stand before the first comma, looked for one by one from a place on that has none before it. A loop of its own: the compiler makes more of it
// than of `first_at` on the rest (docs/SPEED.md).
fn end_singly(t: &[u8], from: usize) -> usize
    requires { (from ≤ length t.now) × (span_of (other 44) t.now ≡ from + span_of (other 44) (drop from t.now)) }
    ensures is { result ≡ span_of (other 44) t.now }
    ensures within { result ≤ length t.now }
{
    for i in from..t.len() {
        if t[i] == b',' {
            return i;
        }
    }
    t.len()
}

// The same for the whole: eight bytes are looked at together while eight are left, the rest one by one from the place where the loop ended, so the loop keeps it.
pub fn field_end(t: &[u8]) -> usize
    ensures is { result ≡ span_of (other 44) t.now }
    ensures within { result ≤ length t.now }
{
    let n = t.len();
    let mut i: usize = 0;
    let mut e: usize = 8;
    while e <= n {
        let marks = comma_marks(&t[i..e]);
        if marks != 0 {
            return i + lowest_mark(marks);
        }
        i = e;
        e += 8;
    }
    end_singly(t, i)
}

// Where a field ends, and where the next one starts; the record's end where there is none.
#[derive(Clone, Copy)]
pub struct Piece {
    pub to: usize,
    pub next: usize,
}

// The field that starts at a, in a record that ends at e.
pub fn field_at(file: &[u8], a: usize, e: usize) -> Piece
    requires { (a ≤ e) × (e ≤ length file.now) }
    ensures { Cut file.now a e result.to result.next }
{
    let n = field_end(&file[a..e]);
    let b = a + n;
    if b < e {
        return Piece { to: b, next: b + 1 };
    }
    Piece { to: b, next: e }
}

// That field itself.
pub fn first_field(file: &[u8], a: usize, e: usize) -> &[u8]
    requires { (a ≤ e) × (e ≤ length file.now) }
    ensures { result.now ≡ field 0 (fields (part file.now a e)) }
{
    let n = field_end(&file[a..e]);
    let b = a + n;
    &file[a..b]
}
