// What is said of the calls of a store, put on a page. Each function answers the place behind what it put.
#![tactic(auto)]

ghost use Rattle.page.specs.Filled.{Filled};
ghost use Rattle.store_lines.specs.Lines.{names_text, key_text, room_text, made_text, number_text, day_text, kept_text, holds_text, counts_text, summary_text, deleted_text};

use page::texts::{number, put};
use phrase::counts::counted;
use phrase::times::date;

fn names(page: &mut [u8], at: usize, nmi: &[u8], suffix: &[u8]) -> usize
    ensures { Filled page.old at (names_text nmi.now suffix.now) result page.new }
{
    let p = put(page, at, nmi);
    let q = put(page, p, b" ");
    put(page, q, suffix)
}

// An NMI, a suffix and a date.
pub fn key(page: &mut [u8], at: usize, nmi: &[u8], suffix: &[u8], day: u64) -> usize
    ensures { Filled page.old at (key_text nmi.now suffix.now day) result page.new }
{
    let p = names(page, at, nmi, suffix);
    let q = put(page, p, b" on ");
    date(page, q, day)
}

fn of_room(page: &mut [u8], at: usize, room: usize) -> usize
    ensures { Filled page.old at (room_text room) result page.new }
{
    let p = counted(page, at, room as u64, b"byte");
    put(page, p, b" of room")
}

// A store of so many slots was made, with so many bytes of room.
pub fn made(page: &mut [u8], at: usize, slots: u64, room: usize) -> usize
    ensures { Filled page.old at (made_text slots room) result page.new }
{
    let p = put(page, at, b"made: ");
    let q = counted(page, p, slots, b"slot");
    let r = put(page, q, b", ");
    of_room(page, r, room)
}

fn numbered(page: &mut [u8], at: usize, k: usize) -> usize
    ensures { Filled page.old at (number_text k) result page.new }
{
    let p = put(page, at, b"day ");
    let q = number(page, p, k as u64);
    put(page, q, b", ")
}

// Which day of a file it is, before what became of it.
pub fn day(page: &mut [u8], at: usize, k: usize, nmi: &[u8], suffix: &[u8], date: u64) -> usize
    ensures { Filled page.old at (day_text k nmi.now suffix.now date) result page.new }
{
    let p = numbered(page, at, k);
    let q = key(page, p, nmi, suffix, date);
    put(page, q, b": ")
}

// A day was kept by a store that held so many days before and holds so many then: as many, where it took an older one's place.
pub fn kept(page: &mut [u8], at: usize, before: usize, days: usize) -> usize
    ensures { Filled page.old at (kept_text before days) result page.new }
{
    if before == days {
        put(page, at, b"kept, in the place of an older one")
    } else {
        put(page, at, b"kept, new")
    }
}

fn holds(page: &mut [u8], at: usize, days: usize) -> usize
    ensures { Filled page.old at (holds_text days) result page.new }
{
    let p = put(page, at, b"; the store holds ");
    counted(page, p, days as u64, b"day")
}

fn counts(page: &mut [u8], at: usize, kept: usize, refused: usize) -> usize
    ensures { Filled page.old at (counts_text kept refused) result page.new }
{
    let p = number(page, at, kept as u64);
    let q = put(page, p, b" kept, ");
    let r = number(page, q, refused as u64);
    put(page, r, b" not kept")
}

// How many days of a file were kept and how many were not, and how many the store holds then.
pub fn summary(page: &mut [u8], at: usize, kept: usize, refused: usize, days: usize) -> usize
    ensures { Filled page.old at (summary_text kept refused days) result page.new }
{
    let p = counts(page, at, kept, refused);
    holds(page, p, days)
}

// A day was deleted; how many the store holds then.
pub fn deleted(page: &mut [u8], at: usize, days: usize) -> usize
    ensures { Filled page.old at (deleted_text days) result page.new }
{
    let p = put(page, at, b"deleted");
    holds(page, p, days)
}
