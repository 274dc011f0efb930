// The table of a store's slots: its headings, the line of a slot in use, and the line of what the store holds.
ghost use Rattle.std.specs.Prelude.{[], ◌∷◌};
ghost use Rattle.page.specs.Filled.{Filled};
ghost use Rattle.phrase.specs.Phrases.{date_text, time_text, cell_text, right_text};
ghost use Rattle.listing.specs.Lines.{columns};
ghost use Rattle.listing.specs.Slots.{headings as Slots·headings, slot_text, days_text, room_text, held_text};

use page::texts::{number, put};
use phrase::columns::{cell, right};
use phrase::counts::counted;
use phrase::times::{date, time};

// Where the columns of the table start, or, of numbers, end.
const SLOT: usize = 4;

const NMI: usize = 6;

const SUFFIX: usize = 18;

const DATE: usize = 26;

const MINUTES: usize = 45;

const UNIT: usize = 47;

const UPDATED: usize = 54;

const BYTES: usize = 80;

pub fn headings(page: &mut [u8], at: usize) -> usize
    ensures { Filled page.old at Slots·headings result page.new }
{
    put(
        page,
        at,
        b"slot  NMI         suffix  date        minutes  unit   updated              bytes",
    )
}

fn dated(page: &mut [u8], at: usize, d: u64) -> usize
    ensures { Filled page.old at (cell_text 26 (date_text d) at) result page.new }
{
    let p = cell(page, at, DATE, b"");
    date(page, p, d)
}

fn updated(page: &mut [u8], at: usize, t: u64) -> usize
    ensures { Filled page.old at (cell_text 54 (time_text t) at) result page.new }
{
    let p = cell(page, at, UPDATED, b"");
    time(page, p, t)
}

fn names(page: &mut [u8], at: usize, slot: usize, nmi: &[u8], suffix: &[u8]) -> usize
    ensures { Filled page.old at (columns (right_text 4 slot ∷ cell_text 6 nmi.now ∷ cell_text 18 suffix.now ∷ []) at) result page.new }
{
    let p = right(page, at, SLOT, slot as u64);
    let q = cell(page, p, NMI, nmi);
    cell(page, q, SUFFIX, suffix)
}

fn amounts(page: &mut [u8], at: usize, day: u64, minutes: u64, unit: &[u8]) -> usize
    ensures { Filled page.old at (columns (cell_text 26 (date_text day) ∷ right_text 45 minutes ∷ cell_text 47 unit.now ∷ []) at) result page.new }
{
    let p = dated(page, at, day);
    let q = right(page, p, MINUTES, minutes);
    cell(page, q, UNIT, unit)
}

fn held_block(page: &mut [u8], at: usize, update: u64, bytes: usize) -> usize
    ensures { Filled page.old at (columns (cell_text 54 (time_text update) ∷ right_text 80 bytes ∷ []) at) result page.new }
{
    let p = updated(page, at, update);
    right(page, p, BYTES, bytes as u64)
}

// A slot in use by its number: its key, its day's interval length, unit and update time, and how many bytes its block has.
pub fn row(
    page: &mut [u8],
    at: usize,
    slot: usize,
    nmi: &[u8],
    suffix: &[u8],
    date: u64,
    minutes: u64,
    unit: &[u8],
    update: u64,
    bytes: usize,
) -> usize
    ensures { Filled page.old at (slot_text slot nmi.now suffix.now date minutes unit.now update bytes at) result page.new }
{
    let p = names(page, at, slot, nmi, suffix);
    let q = amounts(page, p, date, minutes, unit);
    held_block(page, q, update, bytes)
}

// ---- the line below the slots

fn days_in(page: &mut [u8], at: usize, days: usize, slots: usize) -> usize
    ensures { Filled page.old at (days_text days slots) result page.new }
{
    let p = counted(page, at, days as u64, b"day");
    let q = put(page, p, b" in ");
    counted(page, q, slots as u64, b"slot")
}

fn room_left(page: &mut [u8], at: usize, used: usize, free: usize) -> usize
    ensures { Filled page.old at (room_text used free) result page.new }
{
    let p = counted(page, at, used as u64, b"byte");
    let q = put(page, p, b" of the room used, ");
    let r = number(page, q, free as u64);
    put(page, r, b" free")
}

// How many days the store holds in how many slots, and the bytes of its room that blocks have and that are free.
pub fn held(
    page: &mut [u8],
    at: usize,
    days: usize,
    slots: usize,
    used: usize,
    free: usize,
) -> usize
    ensures { Filled page.old at (held_text days slots used free) result page.new }
{
    let p = days_in(page, at, days, slots);
    let q = put(page, p, b"; ");
    room_left(page, q, used, free)
}
