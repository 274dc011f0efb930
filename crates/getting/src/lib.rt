// The day of a key, from a store.
#![tactic(auto)]

ghost use Rattle.std.specs.Prelude.{◌≡◌};
ghost use Rattle.format.specs.Answers.{day_read_as};
ghost use Rattle.format.specs.Day.{five, outcome};
ghost use Rattle.entries.specs.Keys.{key};
ghost use Rattle.store.specs.Calls.{day_rows, get_from, get_of};
ghost use Rattle.getting.specs.Gets.{Readable};

use entries::Entry;
use filling::read_at;
use format::{DayRead, Refusal};
use lines::line_end;
use number_rules::intervals;
use opening::open_store;
use seeking::find_slot;
use slots::{place, read_entry};
use store::Header;

// The day of an entry. The memory is cut at the block's end, as the block that was checked is what stands up to there.
fn read_block(
    memory: &[u8],
    h: Header,
    e: Entry,
    values: &mut [u64],
    flags: &mut [u8],
    methods: &mut [u8],
    reasons: &mut [u16],
    starts: &mut [usize],
    lengths: &mut [usize],
) -> Result<DayRead, Refusal>
    requires { Readable memory.now h e }
    ensures { outcome (day_read_as result) values.new (five flags.new methods.new reasons.new starts.new lengths.new) ≡ get_from (day_rows memory.now h e) values.old (five flags.old methods.old reasons.old starts.old lengths.old) }
{
    let start = h.room as usize + e.start as usize;
    let end = start + e.size as usize;
    let top = line_end(&memory[..end], start);
    let n = intervals(e.minutes as u64);
    read_at(
        &memory[..end],
        start,
        top,
        n,
        e.unit,
        values,
        flags,
        methods,
        reasons,
        starts,
        lengths,
    )
}

// Reads the day of a key into six lent lists, as `read_day` does, but for its descriptions, which are places in memory. 21 if the memory is no store, 14 if it
// has no day of that key, 15 if a list is shorter than the day's n. A refusal leaves every list as it was.
pub fn get_day(
    memory: &[u8],
    nmi: &[u8],
    suffix: &[u8],
    date: u32,
    values: &mut [u64],
    flags: &mut [u8],
    methods: &mut [u8],
    reasons: &mut [u16],
    starts: &mut [usize],
    lengths: &mut [usize],
) -> Result<DayRead, Refusal>
    ensures { outcome (day_read_as result) values.new (five flags.new methods.new reasons.new starts.new lengths.new) ≡ get_of memory.now (key nmi.now suffix.now date) values.old (five flags.old methods.old reasons.old starts.old lengths.old) }
{
    let h = open_store(memory).ok_or(Refusal::bare(21))?;
    let i = find_slot(memory, h, nmi, suffix, date);
    if h.slots <= i {
        return Err(Refusal::bare(14));
    }
    let e = read_entry(memory, place(h, i));
    read_block(
        memory, h, e, values, flags, methods, reasons, starts, lengths,
    )
}
