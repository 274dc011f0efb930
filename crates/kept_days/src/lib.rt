// Whether each used slot of a store holds a day: a key as it is kept, and a block that is accepted and has its date.
#![tactic(auto)]

ghost use Rattle.std.specs.Prelude.{◌≡◌, true, cond};
ghost use Rattle.ground.specs.Lists.{all};
ghost use Rattle.format.specs.Answers.{block_checked_as};
ghost use Rattle.entries.specs.Keys.{kept_key};
ghost use Rattle.store.specs.Used.{used};
ghost use Rattle.store.specs.Store.{slot_key, block_says, is_dated, holds_day, used_slots};
ghost use Rattle.store.specs.Calls.{update_said};

use alone::{block_date, check_block};
use entries::Entry;
use format::{BlockChecked, Refusal};
use keys::kept_key;
use little::{piece_at, u32_at};
use slots::{place, read_entry};
use store::Header;
use used_map::is_used;

// What a check of an entry's block on its own answers.
fn check_entry(memory: &[u8], h: Header, e: Entry) -> Result<BlockChecked, Refusal>
    ensures { block_checked_as result ≡ block_says memory.now h e }
{
    let start = h.room as usize + e.start as usize;
    check_block(
        piece_at(memory, start, e.size as usize),
        0,
        e.minutes as u32,
        e.unit,
    )
}

fn update_said(c: Result<BlockChecked, Refusal>) -> u64
    ensures { result ≡ update_said (block_checked_as c) }
{
    match c {
        Ok(day) => day.update,
        Err(_) => 0,
    }
}

// The update time of an entry's block.
pub fn update_of(memory: &[u8], h: Header, e: Entry) -> u64
    ensures { result ≡ update_said (block_says memory.now h e) }
{
    update_said(check_entry(memory, h, e))
}

// Slot i has a key as it is kept.
fn has_kept_key(memory: &[u8], h: Header, i: u32) -> bool
    ensures { result ≡ kept_key (slot_key memory.now h i) }
{
    let at = place(h, i);
    let date = u32_at(memory, at + 12);
    kept_key(piece_at(memory, at, 10), piece_at(memory, at + 10, 2), date)
}

// An entry's block is accepted and has that date.
fn has_dated_block(memory: &[u8], h: Header, e: Entry, date: u32) -> bool
    ensures { result ≡ is_dated (block_says memory.now h e) date }
{
    let start = h.room as usize + e.start as usize;
    let x = block_date(
        piece_at(memory, start, e.size as usize),
        0,
        e.minutes as u32,
        e.unit,
    );
    match x {
        Some(t) => t == date as u64,
        None => false,
    }
}

#[tactic(auto, unfolding(store::specs::Store::holds_day))]
fn holds_day(memory: &[u8], h: Header, i: u32) -> bool
    ensures { result ≡ holds_day memory.now h i }
{
    let at = place(h, i);
    has_kept_key(memory, h, i)
        && has_dated_block(memory, h, read_entry(memory, at), u32_at(memory, at + 12))
}

fn is_free_or_holds_day(memory: &[u8], h: Header, i: u32) -> bool
    ensures { result ≡ cond (used h.map i) (holds_day memory.now h i) true }
{
    !is_used(h.map, i) || holds_day(memory, h, i)
}

pub fn all_hold_days(memory: &[u8], h: Header) -> bool
    ensures { result ≡ all (holds_day memory.now h) (used_slots h) }
{
    for i in 0..h.slots {
        if !is_free_or_holds_day(memory, h, i) {
            return false;
        }
    }
    true
}
