// nem chart: a day as a picture. The words are its own name, the command's, the file's, and which day it is.
#![tactic(auto)]

ghost use Rattle.format.specs.File.{IsAccepted};
ghost use Rattle.day.specs.Places.{DayAhead};

use chart::bars::bar;
use chart::frame::{end, grid, head};
use chart::legend::legend;
use checking::tour::check_and_note;
use day::{DayStart, Place};
use day_rows::refused;
use disk::load_word;
use explain::refused::explained;
use filling::read_noted;
use format::{DayRead, Refusal};
use machine::{Machine, PAGE};
use measures::axis::most_of;
use outward::{DONE, FAILED, REFUSED, finish, warn, write};
use page::items::{u8_at, u64_at};
use page::texts::part;
use records::{NMI, SUFFIX, UNIT_OF_200, field};
use std::alloc::{AllocError, Global};
use sums::day_sum;
use wanted::wanted_day;

// A place more than the longest file has, so that a longer one is seen to be one.
const ROOM: usize = 1048577;

const MOST: usize = 288;

// The bar of interval i, and the status of writing it out.
fn bar_out(
    rt: &impl Machine,
    page: &mut [u8],
    i: usize,
    n: usize,
    most: u64,
    unit: &[u8],
    values: &[u64],
    flags: &[u8],
) -> u8 {
    let p = bar(
        page,
        0,
        i,
        n,
        u64_at(values, i),
        u8_at(flags, i),
        most,
        unit,
    );
    write(rt, page, p)
}

fn bars(
    rt: &impl Machine,
    page: &mut [u8],
    n: usize,
    most: u64,
    unit: &[u8],
    values: &[u64],
    flags: &[u8],
) -> u8 {
    for i in 0..n {
        let status = bar_out(rt, page, i, n, most, unit, values, flags);
        if status != DONE {
            return status;
        }
    }
    DONE
}

// What stands before the bars: the titles and the axes.
fn front(
    rt: &impl Machine,
    page: &mut [u8],
    record: &[u8],
    date: u32,
    n: usize,
    sum: u64,
    most: u64,
) -> u8 {
    let unit = field(record, UNIT_OF_200);
    let p = head(
        page,
        0,
        field(record, NMI),
        field(record, SUFFIX),
        unit,
        date as u64,
        n,
        sum,
    );
    let q = grid(page, p, most, unit);
    write(rt, page, q)
}

// What stands behind them: the legend.
fn back(rt: &impl Machine, page: &mut [u8], flags: &[u8], n: usize) -> u8 {
    let p = legend(page, 0, flags, n);
    let q = end(page, p);
    write(rt, page, q)
}

// The picture of a day, whose 200 is given.
fn picture(
    rt: &impl Machine,
    page: &mut [u8],
    record: &[u8],
    date: u32,
    n: usize,
    sum: u64,
    values: &[u64],
    flags: &[u8],
) -> u8 {
    let most = most_of(values, n);
    let status = front(rt, page, record, date, n, sum, most);
    if status != DONE {
        return status;
    }
    let drawn = bars(rt, page, n, most, field(record, UNIT_OF_200), values, flags);
    if drawn != DONE {
        return drawn;
    }
    back(rt, page, flags, n)
}

// The day at a place, as it was read; or why there is none.
fn placed(
    rt: &impl Machine,
    page: &mut [u8],
    file: &[u8],
    place: Option<Place>,
    x: Result<DayRead, Refusal>,
    sum: u64,
    values: &[u64],
    flags: &[u8],
) -> u8 {
    match x {
        Err(y) => {
            let p = refused(page, file, y);
            warn(rt, page, p);
            REFUSED
        }
        Ok(d) => {
            let Some(day) = place else {
                return REFUSED;
            };
            picture(
                rt,
                page,
                part(file, day.under.at, day.under.end),
                d.date,
                d.n,
                sum,
                values,
                flags,
            )
        }
    }
}

fn show_in(
    rt: &impl Machine,
    page: &mut [u8],
    file: &[u8],
    k: usize,
    from: DayStart,
    values: &mut [u64],
    flags: &mut [u8],
    methods: &mut [u8],
    reasons: &mut [u16],
    starts: &mut [usize],
    lengths: &mut [usize],
) -> u8
    requires { IsAccepted file.now × DayAhead file.now k from }
{
    let t = read_noted(
        file, k, from, values, flags, methods, reasons, starts, lengths,
    );
    let place = t.place;
    let answer = t.answer;
    let sum = day_sum(file, place);
    placed(rt, page, file, place, answer, sum, values, flags)
}

// Day k of an accepted file, and from where it is found.
fn show_found(rt: &impl Machine, page: &mut [u8], file: &[u8], k: usize, from: DayStart) -> u8
    requires { IsAccepted file.now × DayAhead file.now k from }
{
    let mut values = [0u64; MOST];
    let mut flags = [0u8; MOST];
    let mut methods = [0u8; MOST];
    let mut reasons = [0u16; MOST];
    let mut starts = [0usize; MOST];
    let mut lengths = [0usize; MOST];
    show_in(
        rt,
        page,
        file,
        k,
        from,
        &mut values,
        &mut flags,
        &mut methods,
        &mut reasons,
        &mut starts,
        &mut lengths,
    )
}

fn show_day(rt: &impl Machine, page: &mut [u8], file: &[u8], k: usize) -> u8 {
    let noted = check_and_note(file, k, 0);
    let answer = noted.answer;
    let from = noted.day;
    match answer {
        Ok(_) => show_found(rt, page, file, k, from),
        Err(x) => {
            let p = explained(page, 0, file, x);
            warn(rt, page, p);
            REFUSED
        }
    }
}

fn show(rt: &impl Machine, page: &mut [u8], room: &mut [u8]) -> u8 {
    let Some(n) = load_word(rt, 2, room) else {
        return FAILED;
    };
    let file = part(room, 0, n);
    match wanted_day(rt, page, file) {
        Ok(k) => show_day(rt, page, file, k),
        Err(status) => status,
    }
}

fn run(rt: &impl Machine, alloc: Global) -> Result<u8, AllocError> {
    let mut page = [0u8; PAGE];
    let mut room = vec![in alloc; 0u8; ROOM]?;
    Ok(show(rt, &mut page, &mut room))
}

fn main(rt: HostRuntime) {
    finish(&rt, run(&rt, rt.alloc()));
}
