// The flags of a quality.
ghost use Rattle.std.specs.Prelude.{◌≡◌};
ghost use Rattle.format.specs.Quality.{of_intervals, stands_alone, takes_method, needs_reason};

// A kind of record that says the quality of intervals.
fn of_intervals(kind: u64) -> bool
    ensures { result ≡ of_intervals kind }
{
    matches!(kind, 300 | 400)
}

// A flag that stands without a method in a record of the kind.
pub fn stands_alone(kind: u64, q: u8) -> bool
    ensures { result ≡ stands_alone kind q }
{
    match q {
        b'A' => true,
        b'N' => of_intervals(kind),
        b'V' => kind == 300,
        _ => false,
    }
}

pub fn takes_method(q: u8) -> bool
    ensures { result ≡ takes_method q }
{
    matches!(q, b'E' | b'F' | b'S')
}

pub fn needs_reason(q: u8) -> bool
    ensures { result ≡ needs_reason q }
{
    matches!(q, b'S' | b'F')
}
