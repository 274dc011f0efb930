// Writes one day as the shortest block that says it.
#![tactic(auto)]

ghost use Rattle.std.specs.Prelude.{◌≡◌, [], ◌∷◌, length};
ghost use Rattle.format.specs.Answers.{accepted, written_as};
ghost use Rattle.format.specs.Day.{five, over};
ghost use Rattle.format.specs.Block.{given, day_given, values_text, block_of, write_of, room_of};
ghost use Rattle.block.specs.Pieces.{day_with, fit_with, Ready, FitDay};
ghost use Rattle.writing.specs.Layers.{placed_of, answered_of, measured_of, Writes};

use block::{fit_day, measure_block, put_block};
use format::{DayHead, Refusal, Written};
use lists::enough;
use number_rules::intervals;

// A fit day whose values have k bytes: written where the room is long enough.
fn write_fit(
    day: DayHead,
    values: &[u64],
    flags: &[u8],
    methods: &[u8],
    reasons: &[u16],
    starts: &[usize],
    lengths: &[usize],
    text: &[u8],
    room: &mut [u8],
    n: usize,
    k: usize,
) -> Result<Written, Refusal>
    requires { FitDay day n values.now (five flags.now methods.now reasons.now starts.now lengths.now) text.now × (k ≡ length (values_text values.now)) }
    ensures { Writes placed_of (day_with day n values.now (five flags.now methods.now reasons.now starts.now lengths.now) text.now) room.old result room.new }
{
    let size = measure_block(
        day, values, k, flags, methods, reasons, starts, lengths, text, n,
    );
    let b = size.bytes;
    let r = size.records;
    if room.len() < b {
        return Err(Refusal::bare(15));
    }
    put_block(
        room, day, values, flags, methods, reasons, starts, lengths, text, n, r,
    );
    Ok(Written {
        bytes: b,
        records: r,
    })
}

// A day whose lists are long enough.
fn write_long(
    day: DayHead,
    values: &[u64],
    flags: &[u8],
    methods: &[u8],
    reasons: &[u16],
    starts: &[usize],
    lengths: &[usize],
    text: &[u8],
    room: &mut [u8],
    n: usize,
) -> Result<Written, Refusal>
    requires { Ready n values.now (five flags.now methods.now reasons.now starts.now lengths.now) }
    ensures { Writes (answered_of (fit_with day n values.now (five flags.now methods.now reasons.now starts.now lengths.now) text.now)) (day_with day n values.now (five flags.now methods.now reasons.now starts.now lengths.now) text.now) room.old result room.new }
{
    let m = fit_day(
        day, values, flags, methods, reasons, starts, lengths, text, n,
    );
    match m {
        None => Err(Refusal::bare(16)),
        Some(k) => write_fit(
            day, values, flags, methods, reasons, starts, lengths, text, room, n, k,
        ),
    }
}

// Writes the day's block at the room's start and answers its bytes and records; or refuses it, and leaves the room as it was.
pub fn write_day(
    day: DayHead,
    values: &[u64],
    flags: &[u8],
    methods: &[u8],
    reasons: &[u16],
    starts: &[usize],
    lengths: &[usize],
    text: &[u8],
    room: &mut [u8],
) -> Result<Written, Refusal>
    ensures answer { written_as result ≡ write_of (given day values.now flags.now methods.now reasons.now starts.now lengths.now text.now) (length room.old) }
    ensures left { room.new ≡ room_of (given day values.now flags.now methods.now reasons.now starts.now lengths.now text.now) room.old }
{
    let n = intervals(day.length as u64);
    if n == 0 {
        return Err(Refusal::bare(16));
    }
    if !enough(
        n,
        values.len(),
        flags.len(),
        methods.len(),
        reasons.len(),
        starts.len(),
        lengths.len(),
    ) {
        return Err(Refusal::bare(15));
    }
    write_long(
        day,
        &values[..n],
        flags,
        methods,
        reasons,
        starts,
        lengths,
        text,
        room,
        n,
    )
}

// A day whose lists are long enough: its block's bytes and records, if it is fit.
fn measure_long(
    day: DayHead,
    values: &[u64],
    flags: &[u8],
    methods: &[u8],
    reasons: &[u16],
    starts: &[usize],
    lengths: &[usize],
    text: &[u8],
    n: usize,
) -> Result<Written, Refusal>
    requires { Ready n values.now (five flags.now methods.now reasons.now starts.now lengths.now) }
    ensures { written_as result ≡ measured_of (fit_with day n values.now (five flags.now methods.now reasons.now starts.now lengths.now) text.now) (day_with day n values.now (five flags.now methods.now reasons.now starts.now lengths.now) text.now) }
{
    let m = fit_day(
        day, values, flags, methods, reasons, starts, lengths, text, n,
    );
    match m {
        None => Err(Refusal::bare(16)),
        Some(k) => {
            let size = measure_block(
                day, values, k, flags, methods, reasons, starts, lengths, text, n,
            );
            Ok(Written {
                bytes: size.bytes,
                records: size.records,
            })
        }
    }
}

// What a writing answers in a room that the block just fills, for a caller whose room depends on how long that is.
pub fn measure_day(
    day: DayHead,
    values: &[u64],
    flags: &[u8],
    methods: &[u8],
    reasons: &[u16],
    starts: &[usize],
    lengths: &[usize],
    text: &[u8],
) -> Result<Written, Refusal>
    ensures { written_as result ≡ write_of (given day values.now flags.now methods.now reasons.now starts.now lengths.now text.now) (length (block_of (day_given (given day values.now flags.now methods.now reasons.now starts.now lengths.now text.now)))) }
{
    let n = intervals(day.length as u64);
    if n == 0 {
        return Err(Refusal::bare(16));
    }
    if !enough(
        n,
        values.len(),
        flags.len(),
        methods.len(),
        reasons.len(),
        starts.len(),
        lengths.len(),
    ) {
        return Err(Refusal::bare(15));
    }
    measure_long(
        day,
        &values[..n],
        flags,
        methods,
        reasons,
        starts,
        lengths,
        text,
        n,
    )
}

// Writes the block of a day that measure_day has answered for, and asks nothing again.
pub fn write_measured(
    day: DayHead,
    values: &[u64],
    flags: &[u8],
    methods: &[u8],
    reasons: &[u16],
    starts: &[usize],
    lengths: &[usize],
    text: &[u8],
    room: &mut [u8],
    records: usize,
)
    requires { write_of (given day values.now flags.now methods.now reasons.now starts.now lengths.now text.now) (length room.old) ≡ accepted (length (block_of (day_given (given day values.now flags.now methods.now reasons.now starts.now lengths.now text.now))) ∷ records ∷ []) }
    ensures { room.new ≡ over (block_of (day_given (given day values.now flags.now methods.now reasons.now starts.now lengths.now text.now))) room.old }
{
    let n = intervals(day.length as u64);
    put_block(
        room,
        day,
        &values[..n],
        flags,
        methods,
        reasons,
        starts,
        lengths,
        text,
        n,
        records,
    );
}
