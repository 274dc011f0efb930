// The values of a 300, read as numbers: one at a place of the file, tried as the commonest shape, or in one pass. Each way has the answer of the simple one,
// which finds the field's end and asks the value rule.
#![tactic(auto)]

ghost use Rattle.std.specs.Prelude.{◌≡◌, ◌+◌, ◌-◌, ◌≤◌, ◌<◌, ◌^◌, length};
ghost use Rattle.ground.specs.Lists.{span_of, other, part};
ghost use Rattle.format.specs.Cut.{fields, field};
ghost use Rattle.format.specs.Records.{millionths};
ghost use Rattle.lines.specs.Places.{Cut};

use lines::pieces::field_at;
use lumps::thousand;
use quick_values::thousandths;
use says::value_of;
use shorts::{Valued, short_at};

// The value at a, in a record that ends at e. Its commonest shape, a digit, a point and three digits, is tried first: its end need not be looked for, and its
// number needs no loop.
pub fn value_at(file: &[u8], a: usize, e: usize) -> Valued
    requires { (a ≤ e) × (e ≤ length file.now) }
    ensures is { result.v ≡ millionths (field 0 (fields (part file.now a e))) }
    ensures small { result.v < 10 ^ 13 }
    ensures cut { Cut file.now a e (a + span_of (other 44) (part file.now a e)) result.next }
{
    if 5 < e - a {
        let z = a + 5;
        if file[z] == 44 {
            if thousandths(&file[a..z]) {
                return Valued {
                    v: thousand(&file[a..z]),
                    next: z + 1,
                };
            }
        }
    }
    let p = field_at(file, a, e);
    let b = p.to;
    Valued {
        v: value_of(&file[a..b]),
        next: p.next,
    }
}

// The first place of which fewer than eight bytes are left of a record that ends at e. It is asked for once for the values of a loop.
pub fn short_stop(e: usize) -> usize
    ensures { result ≡ e - 7 }
{
    if e < 7 {
        return 0;
    }
    e - 7
}

// What `value_at` answers, by the pass where it can. One loop asks this, over values of many shapes, and the compiler writes it into that loop.
pub fn value_in_pass(file: &[u8], a: usize, e: usize, stop: usize) -> Valued
    requires { (a ≤ e) × (e ≤ length file.now) × (stop ≡ e - 7) }
    ensures is { result.v ≡ millionths (field 0 (fields (part file.now a e))) }
    ensures small { result.v < 10 ^ 13 }
    ensures cut { Cut file.now a e (a + span_of (other 44) (part file.now a e)) result.next }
{
    if a < stop {
        if let Some(valued) = short_at(file, a, e) {
            return valued;
        }
    }
    value_at(file, a, e)
}
