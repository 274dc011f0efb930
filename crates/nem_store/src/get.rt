// The day of a key as a table.
use day_rows::minutes;
use day_table::write_table;
use format::{DayHead, DayRead, Refusal};
use getting::get_day;
use kept_files::no_day;
use machine::Machine;
use outward::REFUSED;

const MOST: usize = 288;

fn table(
    rt: &impl Machine,
    page: &mut [u8],
    store: &[u8],
    x: Result<DayRead, Refusal>,
    nmi: &[u8],
    suffix: &[u8],
    asked: u32,
    values: &[u64],
    flags: &[u8],
    methods: &[u8],
    reasons: &[u16],
    starts: &[usize],
    lengths: &[usize],
) -> u8 {
    match x {
        Ok(day) => {
            let head = DayHead {
                date: day.date,
                length: minutes(day.n),
                update: day.update,
                load: day.load,
                unit: day.unit,
            };
            write_table(
                rt, page, store, head, day.n, values, flags, methods, reasons, starts, lengths,
            )
        }
        Err(y) => {
            no_day(rt, page, y, nmi, suffix, asked);
            REFUSED
        }
    }
}

fn get_in(
    rt: &impl Machine,
    page: &mut [u8],
    store: &[u8],
    nmi: &[u8],
    suffix: &[u8],
    date: u32,
    values: &mut [u64],
    flags: &mut [u8],
    methods: &mut [u8],
    reasons: &mut [u16],
    starts: &mut [usize],
    lengths: &mut [usize],
) -> u8 {
    let x = get_day(
        store, nmi, suffix, date, values, flags, methods, reasons, starts, lengths,
    );
    table(
        rt, page, store, x, nmi, suffix, date, values, flags, methods, reasons, starts, lengths,
    )
}

pub fn get(
    rt: &impl Machine,
    page: &mut [u8],
    store: &[u8],
    nmi: &[u8],
    suffix: &[u8],
    date: u32,
) -> u8 {
    let mut values = [0u64; MOST];
    let mut flags = [0u8; MOST];
    let mut methods = [0u8; MOST];
    let mut reasons = [0u16; MOST];
    let mut starts = [0usize; MOST];
    let mut lengths = [0usize; MOST];
    get_in(
        rt,
        page,
        store,
        nmi,
        suffix,
        date,
        &mut values,
        &mut flags,
        &mut methods,
        &mut reasons,
        &mut starts,
        &mut lengths,
    )
}
