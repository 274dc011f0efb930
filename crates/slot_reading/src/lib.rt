// What a slot of a store holds.
#![tactic(auto)]

ghost use Rattle.std.specs.Prelude.{◌≡◌, Ok, Some};
ghost use Rattle.store.specs.Ranges.{slot_place, slot_of};
ghost use Rattle.store.specs.Calls.{slot_read_as, slot_says, slot_read_of, read_slot_of};

use format::Refusal;
use kept_days::update_of;
use little::u32_at;
use opening::open_store;
use slots::{place, read_entry};
use store::{Header, Slot};
use used_map::is_used;

// A slot in use.
fn read_used(memory: &[u8], h: Header, i: u32) -> Slot
    ensures { slot_read_as (Ok (Some result)) ≡ slot_says memory.now h (slot_place h i) (slot_of memory.now h i) }
{
    let at = place(h, i);
    let e = read_entry(memory, at);
    let start = h.room as usize + e.start as usize;
    Slot {
        nmi: at,
        suffix: at + 10,
        date: u32_at(memory, at + 12),
        length: e.minutes as u32,
        unit: e.unit,
        update: update_of(memory, h, e),
        start,
        end: start + e.size as usize,
    }
}

fn read_opened(memory: &[u8], h: Header, slot: usize) -> Result<Option<Slot>, Refusal>
    ensures { slot_read_as result ≡ slot_read_of memory.now h slot }
{
    if h.slots as usize <= slot {
        return Err(Refusal::bare(14));
    }
    let i = slot as u32;
    if is_used(h.map, i) {
        return Ok(Some(read_used(memory, h, i)));
    }
    Ok(None)
}

// What the slot of a number from 0 holds, nothing if it is free, its places being places in memory; 21 if that is no store, 14 if it has no such slot.
pub fn read_slot(memory: &[u8], slot: usize) -> Result<Option<Slot>, Refusal>
    ensures { slot_read_as result ≡ read_slot_of memory.now slot }
{
    let h = open_store(memory).ok_or(Refusal::bare(21))?;
    read_opened(memory, h, slot)
}
