// One day as a table, a line for each interval.
use day_rows::{minutes, refused};
use day_table::write_table;
use format::{DayHead, DayRead, Refusal};
use machine::Machine;
use outward::{REFUSED, warn};
use reading::read_day::read_day;
use wanted::wanted_day;

const MOST: usize = 288;

// The day as it was read; or why there is none.
pub fn table(
    rt: &impl Machine,
    page: &mut [u8],
    file: &[u8],
    x: Result<DayRead, Refusal>,
    values: &[u64],
    flags: &[u8],
    methods: &[u8],
    reasons: &[u16],
    starts: &[usize],
    lengths: &[usize],
) -> u8 {
    match x {
        Ok(d) => {
            let day = DayHead {
                date: d.date,
                length: minutes(d.n),
                update: d.update,
                load: d.load,
                unit: d.unit,
            };
            write_table(
                rt, page, file, day, d.n, values, flags, methods, reasons, starts, lengths,
            )
        }
        Err(y) => {
            let p = refused(page, file, y);
            warn(rt, page, p);
            REFUSED
        }
    }
}

fn show_in(
    rt: &impl Machine,
    page: &mut [u8],
    file: &[u8],
    k: usize,
    values: &mut [u64],
    flags: &mut [u8],
    methods: &mut [u8],
    reasons: &mut [u16],
    starts: &mut [usize],
    lengths: &mut [usize],
) -> u8 {
    let x = read_day(file, k, values, flags, methods, reasons, starts, lengths);
    table(
        rt, page, file, x, values, flags, methods, reasons, starts, lengths,
    )
}

fn show_day(rt: &impl Machine, page: &mut [u8], file: &[u8], k: usize) -> u8 {
    let mut values = [0u64; MOST];
    let mut flags = [0u8; MOST];
    let mut methods = [0u8; MOST];
    let mut reasons = [0u16; MOST];
    let mut starts = [0usize; MOST];
    let mut lengths = [0usize; MOST];
    show_in(
        rt,
        page,
        file,
        k,
        &mut values,
        &mut flags,
        &mut methods,
        &mut reasons,
        &mut starts,
        &mut lengths,
    )
}

pub fn show(rt: &impl Machine, page: &mut [u8], file: &[u8]) -> u8 {
    match wanted_day(rt, page, file) {
        Ok(k) => show_day(rt, page, file, k),
        Err(status) => status,
    }
}
