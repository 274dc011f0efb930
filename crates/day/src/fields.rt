// The fields of a record one after the other, from a place of the file on: passed over, or stored as values.
ghost use Rattle.std.specs.Prelude.{◌≡◌, ◌≤◌, length};
ghost use Rattle.std.proofs.lemmas.List.Edits.{sets};
ghost use Rattle.ground.specs.Lists.{part};
ghost use Rattle.format.specs.Cut.{fields};
ghost use Rattle.lines.specs.Places.{Rest};
ghost use Rattle.day.specs.Places.{values_from};

use lines::pieces::field_at;
use values::value_at;

// Where the field behind n fields starts.
pub fn skip(file: &[u8], a: usize, e: usize, n: usize) -> usize
    requires { (a ≤ e) × (e ≤ length file.now) }
    ensures { Rest file.now (fields (part file.now a e)) a n result e }
{
    let mut x = a;
    for _ in 0..n {
        x = field_at(file, x, e).next;
    }
    x
}

// The values of the n fields from a on, in one pass; answers where the field behind them starts.
pub fn fill_values(file: &[u8], a: usize, e: usize, n: usize, values: &mut [u64]) -> usize
    requires { (a ≤ e) × (e ≤ length file.now) × (n ≤ length values.old) }
    ensures is { values.new ≡ sets values.old 0 (values_from n 0 (fields (part file.now a e))) }
    ensures rest { Rest file.now (fields (part file.now a e)) a n result e }
{
    let mut x = a;
    for value in values[..n].iter_mut() {
        let f = value_at(file, x, e);
        *value = f.v;
        x = f.next;
    }
    x
}
