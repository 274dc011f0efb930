// The records of a file and their fields, looked up for what is said of them.
#![tactic(auto)]

pub mod reads;

ghost use Rattle.std.specs.Prelude.{◌≡◌, ◌-◌, ◌≤◌, length, drop};
ghost use Rattle.format.specs.Cut.{lines, fields, field as Cut·field};
ghost use Rattle.records.specs.Records.{crlf_before, record_start, record_of, channel_before, n_before, unit_named, text_at};

use day::fields::skip;
use day::walk::intervals_of;
use lines::pieces::first_field;
use lines::{line_end, scan};
use page::texts::part;
use says::{kind_at, unit_at};

// A record: where it starts and ends, its kind or 0, and how many fields it has.
#[derive(Clone, Copy)]
pub struct Record {
    pub start: usize,
    pub end: usize,
    pub kind: u64,
    pub count: usize,
}

// ---- the record in which a place stands

fn crlf_before(file: &[u8], at: usize) -> bool
    ensures { result ≡ crlf_before file.now at }
{
    if at < 2 || file.len() < at {
        return false;
    }
    file[at - 2] == b'\r' && file[at - 1] == b'\n'
}

// Where the record in which a place stands starts. It is looked for backwards, so that a refused file costs no second walk over it.
fn start_of(file: &[u8], place: usize) -> usize
    ensures is { result ≡ record_start file.now place }
    ensures within { result ≤ length file.now }
{
    for before in (0..place).rev() {
        if crlf_before(file, before + 1) {
            return before + 1;
        }
    }
    0
}

// That record.
pub fn record_of(file: &[u8], place: usize) -> Record
    ensures { result ≡ record_of file.now place }
{
    let start = start_of(file, place);
    let found = scan(file, start);
    let end = found.end;
    Record {
        start,
        end,
        kind: kind_at(file, start, end),
        count: found.commas + 1,
    }
}

// ---- the 200 before a place

// The record of the last 200 before a place, empty before the first. The file is walked over once more for it.
pub fn channel_before(file: &[u8], place: usize) -> &[u8]
    ensures { result.now ≡ channel_before file.now place }
{
    let mut at: usize = 0;
    let mut from: usize = 0;
    let mut to: usize = 0;
    while at < place {
        let a = at;
        let e = line_end(file, a);
        if e == file.len() {
            return part(file, from, to);
        }
        at = e + 2;
        if kind_at(file, a, e) == 200 {
            from = a;
            to = e;
        }
    }
    part(file, from, to)
}

// Its n.
pub fn n_before(file: &[u8], place: usize) -> usize
    ensures is { result ≡ n_before file.now place }
    ensures most { result ≤ 288 }
{
    let channel = channel_before(file, place);
    intervals_of(channel, 0, channel.len())
}

// ---- fields

// The numbers of the fields that a channel is known by.
pub const NMI: usize = 2;

pub const SUFFIX: usize = 5;

// The numbers of the fields that name a unit.
pub const UNIT_OF_200: usize = 8;

pub const UNIT_OF_250: usize = 20;

// The field of a number from 1.
pub fn field(record: &[u8], number: usize) -> &[u8]
    ensures { result.now ≡ Cut·field (number - 1) (fields «record».now) }
{
    let end = record.len();
    let at = skip(record, 0, end, number.saturating_sub(1));
    first_field(record, at, end)
}

// The number of the unit that it names.
pub fn unit_in(record: &[u8], number: usize) -> u8
    ensures { result ≡ unit_named (number - 1) «record».now }
{
    let end = record.len();
    let at = skip(record, 0, end, number.saturating_sub(1));
    unit_at(record, at, end)
}

// ---- descriptions

// The n bytes of the file from a place on, none where it has no such part.
pub fn text_at(file: &[u8], from: usize, n: usize) -> &[u8]
    ensures { result.now ≡ text_at file.now from n }
{
    if from <= file.len() && n <= file.len() - from {
        &file[from..from + n]
    } else {
        &[]
    }
}
