// A day in lent lists as a table on standard output, a line for each interval. No contract can say what is written, so these functions are proved safe, and have
// none; the lines are those of `day_rows`.
#![tactic(auto)]

use day_rows::{interval, top};
use format::DayHead;
use machine::Machine;
use outward::{DONE, write};

fn write_intervals(
    rt: &impl Machine,
    page: &mut [u8],
    text: &[u8],
    n: usize,
    values: &[u64],
    flags: &[u8],
    methods: &[u8],
    reasons: &[u16],
    starts: &[usize],
    lengths: &[usize],
) -> u8 {
    for i in 0..n {
        let p = interval(
            page, text, i, n, values, flags, methods, reasons, starts, lengths,
        );
        let status = write(rt, page, p);
        if status != DONE {
            return status;
        }
    }
    DONE
}

// The day of n intervals, whose descriptions stand in the text.
pub fn write_table(
    rt: &impl Machine,
    page: &mut [u8],
    text: &[u8],
    day: DayHead,
    n: usize,
    values: &[u64],
    flags: &[u8],
    methods: &[u8],
    reasons: &[u16],
    starts: &[usize],
    lengths: &[usize],
) -> u8 {
    let p = top(page, day, n);
    write(rt, page, p);
    write_intervals(
        rt, page, text, n, values, flags, methods, reasons, starts, lengths,
    )
}
