// A walker over the lent file hands out one record after another, each with the walker behind it. It holds the file and a cursor, and leaves the work
// to `found_at`, which takes the two as they are. A caller goes through `record_at`: its contract has no walker, so nothing above it is proved by hand.
#![tactic(auto)]

ghost use Rattle.std.specs.Prelude.{◌≡◌};
ghost use Rattle.walker.specs.Handed.{record_at, behind_record};

use lines::{Found, scan};

// The file, and the place where the next record starts.
#[derive(Clone, Copy)]
struct Walker<'a> {
    file: &'a [u8],
    at: usize,
}

// A record: where it starts, and its end, its first byte that is not plain and its commas; and the place behind its CR LF. Where no CR LF follows there is none, and the
// place is as it was.
#[derive(Clone, Copy)]
struct Fetched {
    record: Option<(usize, Found)>,
    to: usize,
}

// What the walker hands out: the record at its cursor, and the walker behind that record, for the next one.
#[derive(Clone, Copy)]
struct HandedOn<'a> {
    record: Option<(usize, Found)>,
    walker: Walker<'a>,
}

// The record that starts at a place of the file, and the place behind it.
fn found_at(file: &[u8], at: usize) -> Fetched
    ensures { (result.record ≡ record_at file.now at) × (result.to ≡ behind_record at result.record) }
{
    let n = file.len();
    if n < at {
        return Fetched {
            record: None,
            to: at,
        };
    }
    let found = scan(file, at);
    if found.end == n {
        return Fetched {
            record: None,
            to: at,
        };
    }
    let to = found.end + 2;
    Fetched {
        record: Some((at, found)),
        to,
    }
}

impl<'a> Walker<'a> {
    // A walker at the start of the file.
    fn new(file: &'a [u8]) -> Walker<'a>
        ensures { (result.file ≡ file.entry) × (result.at ≡ 0) }
    {
        Walker { file, at: 0 }
    }

    // The record at the cursor, and the walker behind it.
    fn next(self) -> HandedOn<'a>
        ensures { (result.record ≡ record_at self.entry.file.now self.entry.at)
            × (result.walker.file ≡ self.entry.file)
            × (result.walker.at ≡ behind_record self.entry.at result.record) }
    {
        let fetched = found_at(self.file, self.at);
        HandedOn {
            record: fetched.record,
            walker: Walker {
                file: self.file,
                at: fetched.to,
            },
        }
    }

    // The walker moved to another place.
    fn moved(self, at: usize) -> Walker<'a>
        ensures { (result.file ≡ self.entry.file) × (result.at ≡ at) }
    {
        Walker {
            file: self.file,
            at,
        }
    }
}

// The record that a walker hands out at a place of the file.
pub fn record_at(file: &[u8], at: usize) -> Option<(usize, Found)>
    ensures { result ≡ record_at file.now at }
{
    Walker::new(file).moved(at).next().record
}
