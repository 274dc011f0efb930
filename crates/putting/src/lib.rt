// A day put into a store.
#![tactic(auto)]

ghost use Rattle.std.specs.Prelude.{◌≡◌, [], ◌∷◌, length};
ghost use Rattle.format.specs.Answers.{accepted};
ghost use Rattle.format.specs.Block.{given};
ghost use Rattle.entries.specs.Keys.{key};
ghost use Rattle.store.specs.Used.{taken, held};
ghost use Rattle.entries.specs.Left.{left};
ghost use Rattle.store.specs.Calls.{kept_as, put_into, put_fit, put_of};
ghost use Rattle.store.specs.Moves.{live};
ghost use Rattle.entering.specs.Enters.{Enterable};
ghost use Rattle.putting.specs.Steps.{block_given, Addable, Added, Opens, Puttable};

use entering::enter_day;
use format::{DayHead, Refusal};
use keys::good_key;
use opening::open_store;
use seeking::find_slot;
use settling::{live_bytes, settle};
use store::Header;
use taking::{is_kept_since, slot_for};
use used_map::set_free;
use writing::{measure_day, write_measured};

// The blocks of the map's slots move down, and the day's block is written behind them; how many bytes theirs have.
fn add_block(
    memory: &mut [u8],
    h: Header,
    map: u64,
    day: DayHead,
    values: &[u64],
    flags: &[u8],
    methods: &[u8],
    reasons: &[u16],
    starts: &[usize],
    lengths: &[usize],
    text: &[u8],
    records: usize,
) -> usize
    requires { Addable memory.old h map (given day values.now flags.now methods.now reasons.now starts.now lengths.now text.now) records }
    ensures { Added memory.old h map (block_given (given day values.now flags.now methods.now reasons.now starts.now lengths.now text.now)) result memory.new }
{
    let end = settle(memory, h, map);
    let a = h.room as usize + end;
    let e = h.room as usize + h.size as usize;
    write_measured(
        day,
        values,
        flags,
        methods,
        reasons,
        starts,
        lengths,
        text,
        &mut memory[a..e],
        records,
    );
    end
}

// Into slot s, where all tests are passed.
fn put_there(
    memory: &mut [u8],
    h: Header,
    map: u64,
    s: u32,
    nmi: &[u8],
    suffix: &[u8],
    day: DayHead,
    values: &[u64],
    flags: &[u8],
    methods: &[u8],
    reasons: &[u16],
    starts: &[usize],
    lengths: &[usize],
    text: &[u8],
    bytes: usize,
    records: usize,
) -> Result<usize, Refusal>
    requires { Addable memory.old h map (given day values.now flags.now methods.now reasons.now starts.now lengths.now text.now) records × (bytes ≡ length (block_given (given day values.now flags.now methods.now reasons.now starts.now lengths.now text.now))) × Enterable (length memory.old) h s nmi.now suffix.now day.length (live memory.old h map) bytes }
    ensures { left (kept_as result) memory.new ≡ left (accepted (held (taken map s) ∷ [])) (put_into memory.old h map s (key nmi.now suffix.now day.date) (given day values.now flags.now methods.now reasons.now starts.now lengths.now text.now) (block_given (given day values.now flags.now methods.now reasons.now starts.now lengths.now text.now))) }
{
    let start = add_block(
        memory, h, map, day, values, flags, methods, reasons, starts, lengths, text, records,
    );
    enter_day(memory, h, map, s, nmi, suffix, day, start, bytes)
}

// A day whose block has so many bytes and records.
fn put_block(
    memory: &mut [u8],
    h: Header,
    nmi: &[u8],
    suffix: &[u8],
    day: DayHead,
    values: &[u64],
    flags: &[u8],
    methods: &[u8],
    reasons: &[u16],
    starts: &[usize],
    lengths: &[usize],
    text: &[u8],
    bytes: usize,
    records: usize,
) -> Result<usize, Refusal>
    requires { Puttable memory.old h (key nmi.now suffix.now day.date) (given day values.now flags.now methods.now reasons.now starts.now lengths.now text.now) bytes records }
    ensures { left (kept_as result) memory.new ≡ put_fit memory.old h (key nmi.now suffix.now day.date) (given day values.now flags.now methods.now reasons.now starts.now lengths.now text.now) (block_given (given day values.now flags.now methods.now reasons.now starts.now lengths.now text.now)) }
{
    let i = find_slot(memory, h, nmi, suffix, day.date);
    if is_kept_since(memory, h, i, day.update) {
        return Err(Refusal::bare(18));
    }
    let s = slot_for(h, i);
    if h.slots <= s {
        return Err(Refusal::bare(19));
    }
    let map = set_free(h.map, i);
    let live = live_bytes(memory, h, map);
    let size = h.size as usize;
    if size - live < bytes {
        return Err(Refusal::bare(20));
    }
    put_there(
        memory, h, map, s, nmi, suffix, day, values, flags, methods, reasons, starts, lengths,
        text, bytes, records,
    )
}

// In a store.
fn put_opened(
    memory: &mut [u8],
    h: Header,
    nmi: &[u8],
    suffix: &[u8],
    day: DayHead,
    values: &[u64],
    flags: &[u8],
    methods: &[u8],
    reasons: &[u16],
    starts: &[usize],
    lengths: &[usize],
    text: &[u8],
) -> Result<usize, Refusal>
    requires { Opens memory.old h }
    ensures { left (kept_as result) memory.new ≡ put_of memory.old nmi.now suffix.now (given day values.now flags.now methods.now reasons.now starts.now lengths.now text.now) }
{
    if !good_key(nmi, suffix, day.date) {
        return Err(Refusal::bare(16));
    }
    let w = measure_day(day, values, flags, methods, reasons, starts, lengths, text)?;
    put_block(
        memory, h, nmi, suffix, day, values, flags, methods, reasons, starts, lengths, text,
        w.bytes, w.records,
    )
}

// Puts a day under its key, as its shortest block, and answers the days held then. 21 if the memory is no store; 16 if NMI, suffix and the day's date are no good
// key; the writer's refusals in its order, but for its room; 18 if the store has the key with an update time that is equal or later; 19 if the key is new and every
// slot is used; 20 if the blocks that stay and the new one exceed the room. A refusal leaves every byte of memory.
pub fn put_day(
    memory: &mut [u8],
    nmi: &[u8],
    suffix: &[u8],
    day: DayHead,
    values: &[u64],
    flags: &[u8],
    methods: &[u8],
    reasons: &[u16],
    starts: &[usize],
    lengths: &[usize],
    text: &[u8],
) -> Result<usize, Refusal>
    ensures { left (kept_as result) memory.new ≡ put_of memory.old nmi.now suffix.now (given day values.now flags.now methods.now reasons.now starts.now lengths.now text.now) }
{
    let h = open_store(memory).ok_or(Refusal::bare(21))?;
    put_opened(
        memory, h, nmi, suffix, day, values, flags, methods, reasons, starts, lengths, text,
    )
}
