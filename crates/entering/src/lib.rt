// The slot of a day that is put into a store, and the header with it.
#![tactic(auto)]

ghost use Rattle.std.specs.Prelude.{◌≡◌, length};
ghost use Rattle.entries.specs.Keys.{key};
ghost use Rattle.entries.specs.Left.{left};
ghost use Rattle.store.specs.Calls.{kept_as};
ghost use Rattle.entering.specs.Enters.{Enterable, entered_of};

use entries::Entry;
use format::{DayHead, Refusal};
use slots::{place, write_entry, write_header};
use store::Header;
use used_map::{count, set_used};

// Writes slot s for the day, whose block of so many bytes lies at that offset, and the header.
pub fn enter_day(
    memory: &mut [u8],
    h: Header,
    map: u64,
    s: u32,
    nmi: &[u8],
    suffix: &[u8],
    day: DayHead,
    start: usize,
    size: usize,
) -> Result<usize, Refusal>
    requires { Enterable (length memory.old) h s nmi.now suffix.now day.length start size }
    ensures { left (kept_as result) memory.new ≡ entered_of memory.old h map s (key nmi.now suffix.now day.date) day start size }
{
    let at = place(h, s);
    write_entry(
        memory,
        at,
        nmi,
        suffix,
        day.date,
        Entry {
            minutes: day.length as u8,
            unit: day.unit,
            start: start as u32,
            size: size as u32,
        },
    );
    let full = set_used(map, s);
    let days = count(full);
    let end = start + size;
    write_header(
        memory,
        Header {
            slots: h.slots,
            days,
            map: full,
            list: h.list,
            room: h.room,
            size: h.size,
            used: end as u32,
        },
    );
    Ok(days as usize)
}
