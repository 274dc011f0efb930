// A table read into 128 keys and shares. What a line says has its contract in `map_table`.
use leaf::bytes::{first_at, same_bytes};
use map_table::{Fault, NMI, SUFFIX, row_of};
use page::items::u8_at;
use page::texts::{part, put};
use records::field;

const OUTPUTS: u64 = 128;

// More than any share.
const SHARES: u64 = 65536;

// The first line that is at fault, by its number from 1 and its place in the text.
#[derive(Clone, Copy)]
pub struct Wrong {
    pub line: u64,
    pub from: usize,
    pub to: usize,
    pub fault: Fault,
}

// ---- a line

// The output has a line from here on.
fn name(named: &mut [u8], output: usize) -> Result<(), Fault> {
    if u8_at(named, output) != 0 {
        return Err(Fault::Twice);
    }
    put(named, output, &[1]);
    Ok(())
}

fn enter(line: &[u8], output: u64, share: u64, keys: &mut [u8], shares: &mut [u16]) {
    let i = (output % OUTPUTS) as usize;
    let p = put(keys, 12 * i, field(line, NMI));
    put(keys, p, field(line, SUFFIX));
    if i < shares.len() {
        shares[i] = (share % SHARES) as u16;
    }
}

fn take(line: &[u8], keys: &mut [u8], shares: &mut [u16], named: &mut [u8]) -> Result<(), Fault> {
    let row = row_of(line)?;
    if let Some(share) = row.share {
        enter(line, row.output, share, keys, shares);
    }
    name(named, row.output as usize)
}

// An empty line, or the heading in the first one.
fn is_passed_over(line: &[u8], number: u64) -> bool {
    line.is_empty() || (number == 1 && same_bytes(line, b"output,NMI,suffix,share"))
}

fn turn(
    line: &[u8],
    number: u64,
    keys: &mut [u8],
    shares: &mut [u16],
    named: &mut [u8],
) -> Result<(), Fault> {
    if is_passed_over(line, number) {
        return Ok(());
    }
    take(line, keys, shares, named)
}

// Where a line that starts and ends at places ends without the CR before its LF.
fn without_cr(text: &[u8], from: usize, to: usize) -> usize {
    if to <= from {
        return to;
    }
    if u8_at(text, to - 1) == b'\r' {
        return to - 1;
    }
    to
}

// ---- all lines

fn read_lines(
    text: &[u8],
    keys: &mut [u8],
    shares: &mut [u16],
    named: &mut [u8],
) -> Result<(), Wrong> {
    let mut at: usize = 0;
    let mut line: u64 = 1;
    while at < text.len() {
        let end = at + first_at(&text[at..], b'\n');
        let to = without_cr(text, at, end);
        if let Err(fault) = turn(part(text, at, to), line, keys, shares, named) {
            return Err(Wrong {
                line,
                from: at,
                to,
                fault,
            });
        }
        at = end + 1;
        line += 1;
    }
    Ok(())
}

// Outputs that no line names stay as the lists have them.
pub fn read_table(text: &[u8], keys: &mut [u8], shares: &mut [u16]) -> Result<(), Wrong> {
    let mut named = [0u8; 128];
    read_lines(text, keys, shares, &mut named)
}
