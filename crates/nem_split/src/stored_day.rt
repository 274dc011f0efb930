// A day that a store holds, by its key.
use super::shown::{Day, show};
use kept_files::no_day;
use machine::{Machine, WORD};
use named::date_of;
use outward::{FAILED, REFUSED};
use seeking::find_slot;
use slots::{place, read_entry, read_header};
use splitter::split_stored;
use stored_sums::stored_sum;
use wanted::no_date;

// The words of the key.
const NMI: usize = 4;

const SUFFIX: usize = 5;

const DATE: usize = 6;

const OUTPUTS: usize = 128;

// More than the number of any date.
const EIGHT_DIGITS: u64 = 100000000;

// The unit of the day of a key, in what is known to be a store that holds it.
fn unit_of(store: &[u8], nmi: &[u8], suffix: &[u8], date: u32) -> u8 {
    let h = read_header(store);
    let slot = find_slot(store, h, nmi, suffix, date);
    let entry = read_entry(store, place(h, slot));
    entry.unit
}

// The day of a key, whose values add up to a total.
fn split_held(
    rt: &impl Machine,
    page: &mut [u8],
    map: &[u8],
    store: &[u8],
    nmi: &[u8],
    suffix: &[u8],
    date: u32,
    total: u64,
) -> u8 {
    let mut parts = [0u64; OUTPUTS];
    let answer = split_stored(store, nmi, suffix, date, map, &mut parts);
    let day = Day {
        date,
        unit: unit_of(store, nmi, suffix, date),
        total,
    };
    show(rt, page, map, nmi, suffix, day, answer, &parts)
}

fn split_key(
    rt: &impl Machine,
    page: &mut [u8],
    map: &[u8],
    store: &[u8],
    nmi: &[u8],
    suffix: &[u8],
    date: u32,
) -> u8 {
    let stored = stored_sum(store, nmi, suffix, date);
    match stored {
        Ok(total) => split_held(rt, page, map, store, nmi, suffix, date, total),
        Err(x) => {
            no_day(rt, page, x, nmi, suffix, date);
            REFUSED
        }
    }
}

pub fn split(rt: &impl Machine, page: &mut [u8], map: &[u8], store: &[u8]) -> u8 {
    let mut nmi = [0u8; WORD];
    let n = rt.arg(NMI, &mut nmi);
    let mut suffix = [0u8; WORD];
    let m = rt.arg(SUFFIX, &mut suffix);
    let mut date = [0u8; WORD];
    let k = rt.arg(DATE, &mut date);
    match date_of(&date[..k]) {
        Some(day) => split_key(
            rt,
            page,
            map,
            store,
            &nmi[..n],
            &suffix[..m],
            (day % EIGHT_DIGITS) as u32,
        ),
        None => {
            no_date(rt, page, &date[..k]);
            FAILED
        }
    }
}
