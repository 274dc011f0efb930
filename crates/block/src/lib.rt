// A day block: whether the day is fit for one, and the block measured and written, piece after piece.
#![tactic(auto)]

ghost use Rattle.std.specs.Prelude.{◌≡◌, ◌≤◌, length};
ghost use Rattle.ground.specs.Room.{Put};
ghost use Rattle.format.specs.Day.{five};
ghost use Rattle.format.specs.Block.{values_text, block_of, records_of};
ghost use Rattle.block.specs.Pieces.{day_with, fit_of, Ready, FitDay, Sizes};

use covers::{Size, measure_runs, put_runs};
use field_texts::marks::load_len;
use fit::{fit_marks, tag_at};
use format::DayHead;
use heads::{fit_head, put_front, put_uniform, put_varied};
use marks::mark_len;
use units::decimals;
use value_texts::measure_values;

// The bytes of the values, if the day is fit.
pub fn fit_day(
    day: DayHead,
    values: &[u64],
    flags: &[u8],
    methods: &[u8],
    reasons: &[u16],
    starts: &[usize],
    lengths: &[usize],
    text: &[u8],
    n: usize,
) -> Option<usize>
    requires { Ready n values.now (five flags.now methods.now reasons.now starts.now lengths.now) }
    ensures { result ≡ fit_of day n values.now (five flags.now methods.now reasons.now starts.now lengths.now) text.now }
{
    if !fit_head(day) {
        return None;
    }
    if !fit_marks(flags, methods, reasons, starts, lengths, text, n) {
        return None;
    }
    measure_values(values, decimals(day.unit))
}

// The block's bytes and records, where the values of a fit day have k bytes. It takes the values only so that its contract can speak of them.
pub fn measure_block(
    day: DayHead,
    values: &[u64],
    k: usize,
    flags: &[u8],
    methods: &[u8],
    reasons: &[u16],
    starts: &[usize],
    lengths: &[usize],
    text: &[u8],
    n: usize,
) -> Size
    requires { FitDay day n values.now (five flags.now methods.now reasons.now starts.now lengths.now) text.now × (k ≡ length (values_text values.now)) }
    ensures { Sizes (day_with day n values.now (five flags.now methods.now reasons.now starts.now lengths.now) text.now) result.bytes result.records }
{
    let runs = measure_runs(flags, methods, reasons, starts, lengths, text, n);
    let b = runs.bytes;
    let r = runs.records;
    let w = 31 + k + load_len(day.load);
    if r == 1 {
        let t = tag_at(flags, methods, reasons, starts, lengths, 0);
        return Size {
            bytes: w + mark_len(text, t),
            records: 1,
        };
    }
    Size {
        bytes: w + 3 + b,
        records: 1 + r,
    }
}

// The whole block, of so many records.
pub fn put_block(
    room: &mut [u8],
    day: DayHead,
    values: &[u64],
    flags: &[u8],
    methods: &[u8],
    reasons: &[u16],
    starts: &[usize],
    lengths: &[usize],
    text: &[u8],
    n: usize,
    records: usize,
) -> usize
    requires fit_day { FitDay day n values.now (five flags.now methods.now reasons.now starts.now lengths.now) text.now × (records ≡ records_of (day_with day n values.now (five flags.now methods.now reasons.now starts.now lengths.now) text.now)) }
    requires text_in_bounds { length (block_of (day_with day n values.now (five flags.now methods.now reasons.now starts.now lengths.now) text.now)) ≤ length room.old }
    ensures { Put room.old 0 (block_of (day_with day n values.now (five flags.now methods.now reasons.now starts.now lengths.now) text.now)) result room.new }
{
    let p = put_front(room, day.date, values);
    if records == 1 {
        let t = tag_at(flags, methods, reasons, starts, lengths, 0);
        return put_uniform(room, p, text, t, day);
    }
    let q = put_varied(room, p, day);
    put_runs(room, q, flags, methods, reasons, starts, lengths, text, n)
}
