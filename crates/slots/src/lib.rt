// A store's header and its slots in lent memory, read and written. Reading is total: bytes that the memory lacks count as 0.
#![tactic(auto)]

ghost use Rattle.std.specs.Prelude.{◌≡◌, ◌+◌, ◌≤◌, ◌<◌, length};
ghost use Rattle.std.proofs.lemmas.List.Edits.{sets};
ghost use Rattle.ground.specs.Lists.{from};
ghost use Rattle.entries.specs.Keys.{key, capital_key};
ghost use Rattle.entries.specs.Entries.{entry_at, entry_bytes};
ghost use Rattle.store.specs.Head.{header_of, header_bytes};
ghost use Rattle.store.specs.Ranges.{slot_place, starts, sizes};
ghost use Rattle.store.specs.Moves.{offset_put, offsets_put};
ghost use Rattle.slots.specs.Fields.{numbers_of, field_of, dates};

use entries::Entry;
use keys::put_capitals;
use little::{put_number, u8_at, u32_at, u64_at};
use store::Header;
use used_map::is_used;

// Where an entry has its date, the offset of its block, and its length.
const DATE: usize = 12;

const START: usize = 18;

const SIZE: usize = 22;

pub fn read_header(m: &[u8]) -> Header
    ensures { result ≡ header_of m.now }
{
    Header {
        slots: u32_at(m, 0),
        days: u32_at(m, 4),
        map: u64_at(m, 8),
        list: u32_at(m, 16),
        room: u32_at(m, 20),
        size: u32_at(m, 24),
        used: u32_at(m, 28),
    }
}

pub fn write_header(m: &mut [u8], h: Header)
    ensures { m.new ≡ sets m.old 0 (header_bytes h) }
{
    put_number(m, 0, 4, h.slots as u64);
    put_number(m, 4, 4, h.days as u64);
    put_number(m, 8, 8, h.map);
    put_number(m, 16, 4, h.list as u64);
    put_number(m, 20, 4, h.room as u64);
    put_number(m, 24, 4, h.size as u64);
    put_number(m, 28, 4, h.used as u64);
}

// Where slot i stands.
pub fn place(h: Header, i: u32) -> usize
    ensures { result ≡ slot_place h i }
{
    h.list as usize + 26 * i as usize
}

// What the entry at place `at` holds beside its key.
pub fn read_entry(m: &[u8], at: usize) -> Entry
    ensures { result ≡ entry_at m.now at }
{
    if m.len() <= at {
        return Entry {
            minutes: 0,
            unit: 0,
            start: 0,
            size: 0,
        };
    }
    Entry {
        minutes: u8_at(m, at + 16),
        unit: u8_at(m, at + 17),
        start: u32_at(m, at + START),
        size: u32_at(m, at + SIZE),
    }
}

// The numbers of an entry behind its NMI and suffix.
fn put_numbers(m: &mut [u8], at: usize, date: u32, e: Entry)
    requires { at + 14 ≤ length m.old }
    ensures { m.new ≡ sets m.old at (numbers_of date e) }
{
    put_number(m, at, 4, date as u64);
    put_number(m, at + 4, 1, e.minutes as u64);
    put_number(m, at + 5, 1, e.unit as u64);
    put_number(m, at + 6, 4, e.start as u64);
    put_number(m, at + 10, 4, e.size as u64);
}

// Writes an entry of that key at place `at`.
pub fn write_entry(m: &mut [u8], at: usize, nmi: &[u8], suffix: &[u8], date: u32, e: Entry)
    requires { at + length nmi.now + length suffix.now + 14 ≤ length m.old }
    ensures { m.new ≡ sets m.old at (entry_bytes (capital_key (key nmi.now suffix.now date)) e) }
{
    put_capitals(m, at, nmi);
    let a = at + nmi.len();
    put_capitals(m, a, suffix);
    put_numbers(m, a + suffix.len(), date, e);
}

// The number at place k of slot i; 0 where the slot is free.
fn field(m: &[u8], h: Header, map: u64, k: usize, i: u32) -> u32
    requires { k < 26 }
    ensures { result ≡ field_of m.now h map k i }
{
    if is_used(map, i) {
        u32_at(m, place(h, i) + k)
    } else {
        0
    }
}

// And of each of the 64 slots.
fn read_fields(m: &[u8], h: Header, map: u64, k: usize, out: &mut [u32])
    requires { (k < 26) × (length out.old ≡ 64) }
    ensures { out.new ≡ from (field_of m.now h map k) 0 64 }
{
    for (i, x) in out.iter_mut().enumerate() {
        *x = field(m, h, map, k, i as u32);
    }
}

// The offsets of the blocks of the used slots.
pub fn read_starts(m: &[u8], h: Header, map: u64, out: &mut [u32])
    requires { length out.old ≡ 64 }
    ensures { out.new ≡ starts m.now h map }
{
    read_fields(m, h, map, START, out);
}

// And their lengths.
pub fn read_sizes(m: &[u8], h: Header, map: u64, out: &mut [u32])
    requires { length out.old ≡ 64 }
    ensures { out.new ≡ sizes m.now h map }
{
    read_fields(m, h, map, SIZE, out);
}

// And the dates of the days.
pub fn read_dates(m: &[u8], h: Header, map: u64, out: &mut [u32])
    requires { length out.old ≡ 64 }
    ensures { out.new ≡ dates m.now h map }
{
    read_fields(m, h, map, DATE, out);
}

// The offset of slot i's block, where the slot is in use.
fn put_offset(m: &mut [u8], h: Header, map: u64, i: u32, v: u32)
    ensures { m.new ≡ offset_put h map i v m.old }
{
    if is_used(map, i) {
        put_number(m, place(h, i) + START, 4, v as u64);
    }
}

// And of each of the used slots.
pub fn put_offsets(m: &mut [u8], h: Header, map: u64, values: &[u32])
    requires { length values.now ≤ 64 }
    ensures { m.new ≡ offsets_put h map 0 values.now m.old }
{
    for (i, v) in values.iter().enumerate() {
        put_offset(m, h, map, i as u32, *v);
    }
}
