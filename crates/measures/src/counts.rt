// How many intervals of a day have which quality.
ghost use Rattle.std.specs.Prelude.{◌≡◌, take};
ghost use Rattle.measures.specs.Counts.{count_of, counts_of};

#[derive(Clone, Copy)]
pub struct Counts {
    pub actual: usize,
    pub estimated: usize,
    pub final_substituted: usize,
    pub substituted: usize,
    pub null: usize,
}

// How many of the first n flags are the letter.
pub fn count_of(flags: &[u8], n: usize, letter: u8) -> usize
    ensures { result ≡ count_of letter (take n flags.now) }
{
    let first = &flags[..n.min(flags.len())];
    let mut found = 0;
    for f in first {
        if *f == letter {
            found += 1;
        }
    }
    found
}

// Of the first n flags.
pub fn counts_of(flags: &[u8], n: usize) -> Counts
    ensures { result ≡ counts_of flags.now n }
{
    Counts {
        actual: count_of(flags, n, b'A'),
        estimated: count_of(flags, n, b'E'),
        final_substituted: count_of(flags, n, b'F'),
        substituted: count_of(flags, n, b'S'),
        null: count_of(flags, n, b'N'),
    }
}
