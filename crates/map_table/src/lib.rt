// A line of a table for a tenant map, output,NMI,suffix,share, without its end: the entry that it gives an output, or what is wrong with it.
#![tactic(auto)]

ghost use Rattle.std.specs.Prelude.{◌≡◌, ◌&&◌, length, eqb};
ghost use Rattle.format.specs.Cut.{fields};
ghost use Rattle.map_table.specs.Rows.{fault_number, number_up_to, with_share, without_key, is_keyless, keyed, row_of};

use leaf::digits::digits;
use measures::counts::count_of;
use records::field;

// An output and its share, which is none where the output is unused.
#[derive(Clone, Copy)]
pub struct Row {
    pub output: u64,
    pub share: Option<u64>,
}

// What is wrong with a line: it has not four fields, which of them is at fault, the output has a line already, which a single line can't tell, or there is a share
// without NMI and suffix.
#[derive(Clone, Copy, PartialEq, Eq)]
pub enum Fault {
    Fields,
    Output,
    Nmi,
    Suffix,
    Share,
    Twice,
    NoKey,
}

// The fields, by their numbers from 1.
pub const OUTPUT: usize = 1;

pub const NMI: usize = 2;

pub const SUFFIX: usize = 3;

pub const SHARE: usize = 4;

// How many commas part four fields.
const COMMAS: usize = 3;

const LAST_OUTPUT: u64 = 127;

const HIGHEST_SHARE: u64 = 1000;

// A fault by the number of its sentence.
pub fn number_of(fault: Fault) -> u8
    ensures { result ≡ fault_number fault }
{
    match fault {
        Fault::Fields => 0,
        Fault::Output => 1,
        Fault::Nmi => 2,
        Fault::Suffix => 3,
        Fault::Share => 4,
        Fault::Twice => 5,
        Fault::NoKey => 6,
    }
}

// A number of 1 to 4 digits that is not above a most.
fn number_up_to(f: &[u8], most: u64) -> Option<u64>
    ensures { result ≡ number_up_to most f.now }
{
    match digits(f, 1, 4) {
        Some(n) => {
            if n <= most {
                return Some(n);
            }
            None
        }
        None => None,
    }
}

fn with_share(output: u64, share: &[u8]) -> Result<Row, Fault>
    ensures { result ≡ with_share output (number_up_to 1000 share.now) }
{
    match number_up_to(share, HIGHEST_SHARE) {
        Some(n) => Ok(Row {
            output,
            share: Some(n),
        }),
        None => Err(Fault::Share),
    }
}

fn without_key(output: u64, share: &[u8]) -> Result<Row, Fault>
    ensures { result ≡ without_key output (number_up_to 1000 share.now) }
{
    match number_up_to(share, HIGHEST_SHARE) {
        Some(n) => {
            if n == 0 {
                return Ok(Row {
                    output,
                    share: None,
                });
            }
            Err(Fault::NoKey)
        }
        None => Err(Fault::Share),
    }
}

fn is_keyless(nmi: &[u8], suffix: &[u8]) -> bool
    ensures { result ≡ is_keyless nmi.now suffix.now }
{
    nmi.is_empty() && suffix.is_empty()
}

fn with_key(output: u64, nmi: &[u8], suffix: &[u8], share: &[u8]) -> Result<Row, Fault>
    ensures { result ≡ keyed output nmi.now suffix.now share.now }
{
    if is_keyless(nmi, suffix) {
        return without_key(output, share);
    }
    if !text_rules::nmi(nmi) {
        return Err(Fault::Nmi);
    }
    if !text_rules::suffix(suffix) {
        return Err(Fault::Suffix);
    }
    with_share(output, share)
}

fn has_four(line: &[u8]) -> bool
    ensures { result ≡ eqb (length (fields line.now)) 4 }
{
    count_of(line, line.len(), b',') == COMMAS
}

pub fn row_of(line: &[u8]) -> Result<Row, Fault>
    ensures { result ≡ row_of line.now }
{
    if !has_four(line) {
        return Err(Fault::Fields);
    }
    match number_up_to(field(line, OUTPUT), LAST_OUTPUT) {
        Some(output) => with_key(
            output,
            field(line, NMI),
            field(line, SUFFIX),
            field(line, SHARE),
        ),
        None => Err(Fault::Output),
    }
}
