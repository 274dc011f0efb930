// Every day of a file put into a store, a line for each.
ghost use Rattle.std.specs.Prelude.{◌+◌};
ghost use Rattle.format.specs.File.{IsAccepted};
ghost use Rattle.day.specs.Places.{DayAhead};

use checking::tour::check_and_note;
use day::{DayStart, Place};
use day_rows::minutes;
use disk::load_word;
use explain::refused::explained;
use filling::read_noted;
use format::{DayHead, DayRead, Refusal};
use kept_files::no_store;
use machine::Machine;
use opening::open_store;
use outward::{DONE, FAILED, REFUSED, graver, keep, warn, write_line};
use page::texts::part;
use putting::put_day;
use records::{NMI, SUFFIX, field};
use refusals::headline;
use store_lines::{day as which_day, kept, summary};

// The word that names the file.
const FILE: usize = 4;

const MOST: usize = 288;

// Behind a day: the days held then, and whether it was kept (DONE), was not (REFUSED), or can't be told of (FAILED).
#[derive(Clone, Copy)]
struct Turned {
    held: usize,
    status: u8,
}

// The same, and from where the next day is found.
#[derive(Clone, Copy)]
struct Passed {
    turned: Turned,
    next: DayStart,
}

// Behind all days: how many were kept, how many the store holds then, and the gravest status.
#[derive(Clone, Copy)]
struct Filled {
    kept: usize,
    held: usize,
    status: u8,
}

// ---- a day

// The line ends, and the day's status stands unless it can't be written.
fn told(rt: &impl Machine, page: &mut [u8], at: usize, held: usize, status: u8) -> Turned {
    Turned {
        held,
        status: graver(status, write_line(rt, page, at)),
    }
}

fn is_kept(rt: &impl Machine, page: &mut [u8], at: usize, before: usize, held: usize) -> Turned {
    let p = kept(page, at, before, held);
    told(rt, page, p, held, DONE)
}

fn not_kept(rt: &impl Machine, page: &mut [u8], at: usize, before: usize, x: Refusal) -> Turned {
    let p = headline(page, at, x.number);
    told(rt, page, p, before, REFUSED)
}

// Day k of a channel, whose 200 is given, into a store that holds so many days.
fn put_one(
    rt: &impl Machine,
    page: &mut [u8],
    store: &mut [u8],
    file: &[u8],
    k: usize,
    before: usize,
    record: &[u8],
    day: DayHead,
    values: &[u64],
    flags: &[u8],
    methods: &[u8],
    reasons: &[u16],
    starts: &[usize],
    lengths: &[usize],
) -> Turned {
    let nmi = field(record, NMI);
    let suffix = field(record, SUFFIX);
    let p = which_day(page, 0, k, nmi, suffix, day.date as u64);
    match put_day(
        store, nmi, suffix, day, values, flags, methods, reasons, starts, lengths, file,
    ) {
        Ok(held) => is_kept(rt, page, p, before, held),
        Err(x) => not_kept(rt, page, p, before, x),
    }
}

// The day at a place, as it was read. In an accepted file each number before its days' has one.
fn put_placed(
    rt: &impl Machine,
    page: &mut [u8],
    store: &mut [u8],
    file: &[u8],
    k: usize,
    before: usize,
    place: Option<Place>,
    x: Result<DayRead, Refusal>,
    values: &[u64],
    flags: &[u8],
    methods: &[u8],
    reasons: &[u16],
    starts: &[usize],
    lengths: &[usize],
) -> Turned {
    let Some(found) = place else {
        return Turned {
            held: before,
            status: FAILED,
        };
    };
    let Ok(read) = x else {
        return Turned {
            held: before,
            status: FAILED,
        };
    };
    let day = DayHead {
        date: read.date,
        length: minutes(read.n),
        update: read.update,
        load: read.load,
        unit: read.unit,
    };
    put_one(
        rt,
        page,
        store,
        file,
        k,
        before,
        part(file, found.under.at, found.under.end),
        day,
        values,
        flags,
        methods,
        reasons,
        starts,
        lengths,
    )
}

// The day of a number, read into lent lists.
fn turn_in(
    rt: &impl Machine,
    page: &mut [u8],
    store: &mut [u8],
    file: &[u8],
    k: usize,
    before: usize,
    from: DayStart,
    values: &mut [u64],
    flags: &mut [u8],
    methods: &mut [u8],
    reasons: &mut [u16],
    starts: &mut [usize],
    lengths: &mut [usize],
) -> Passed
    requires { IsAccepted file.now × DayAhead file.now k from }
    ensures { DayAhead file.now (k + 1) result.next }
{
    let t = read_noted(
        file, k, from, values, flags, methods, reasons, starts, lengths,
    );
    let place = t.place;
    let answer = t.answer;
    let next = t.next;
    let turned = put_placed(
        rt, page, store, file, k, before, place, answer, values, flags, methods, reasons, starts,
        lengths,
    );
    Passed { turned, next }
}

// The day of a number.
fn turn(
    rt: &impl Machine,
    page: &mut [u8],
    store: &mut [u8],
    file: &[u8],
    k: usize,
    before: usize,
    from: DayStart,
) -> Passed
    requires { IsAccepted file.now × DayAhead file.now k from }
    ensures { DayAhead file.now (k + 1) result.next }
{
    let mut values = [0u64; MOST];
    let mut flags = [0u8; MOST];
    let mut methods = [0u8; MOST];
    let mut reasons = [0u16; MOST];
    let mut starts = [0usize; MOST];
    let mut lengths = [0usize; MOST];
    turn_in(
        rt,
        page,
        store,
        file,
        k,
        before,
        from,
        &mut values,
        &mut flags,
        &mut methods,
        &mut reasons,
        &mut starts,
        &mut lengths,
    )
}

// ---- all days

// How many of so many days were kept, with one that has this status.
fn and_this(kept: usize, days: usize, status: u8) -> usize {
    if status == DONE && kept < days {
        kept + 1
    } else {
        kept
    }
}

// Day after day, until one can't be told of.
fn put_days(
    rt: &impl Machine,
    page: &mut [u8],
    store: &mut [u8],
    file: &[u8],
    days: usize,
    first: DayStart,
    before: usize,
) -> Filled
    requires { IsAccepted file.now × DayAhead file.now 0 first }
{
    let mut kept: usize = 0;
    let mut held = before;
    let mut status = DONE;
    let mut from = first;
    for k in 0..days {
        let t = turn(rt, page, store, file, k, held, from);
        let turned = t.turned;
        if turned.status == FAILED {
            return Filled {
                kept,
                held,
                status: FAILED,
            };
        }
        held = turned.held;
        status = graver(status, turned.status);
        from = t.next;
        kept = and_this(kept, days, turned.status);
    }
    Filled { kept, held, status }
}

// The store's bytes go out where a day was kept.
fn store_out(rt: &impl Machine, store: &[u8], kept: usize, status: u8) -> u8 {
    if kept == 0 {
        return DONE;
    }
    if status == FAILED {
        return FAILED;
    }
    keep(rt, store)
}

// Those of all days that were not kept.
fn others(days: usize, kept: usize) -> usize {
    days.saturating_sub(kept)
}

// Where a line can't be written nothing is kept, as nobody is told.
fn fill(
    rt: &impl Machine,
    page: &mut [u8],
    store: &mut [u8],
    file: &[u8],
    days: usize,
    first: DayStart,
    before: usize,
) -> u8
    requires { IsAccepted file.now × DayAhead file.now 0 first }
{
    let filled = put_days(rt, page, store, file, days, first, before);
    let status = graver(
        filled.status,
        store_out(rt, store, filled.kept, filled.status),
    );
    if status == FAILED {
        return FAILED;
    }
    let p = summary(page, 0, filled.kept, others(days, filled.kept), filled.held);
    graver(status, write_line(rt, page, p))
}

fn put_file(
    rt: &impl Machine,
    page: &mut [u8],
    store: &mut [u8],
    file: &[u8],
    before: usize,
) -> u8 {
    let noted = check_and_note(file, 0, 0);
    let answer = noted.answer;
    let first = noted.day;
    match answer {
        Ok(c) => fill(rt, page, store, file, c.days, first, before),
        Err(x) => {
            let p = explained(page, 0, file, x);
            warn(rt, page, p);
            REFUSED
        }
    }
}

pub fn put(rt: &impl Machine, page: &mut [u8], store: &mut [u8], room: &mut [u8]) -> u8 {
    let Some(h) = open_store(store) else {
        no_store(rt, page);
        return REFUSED;
    };
    let Some(n) = load_word(rt, FILE, room) else {
        return FAILED;
    };
    put_file(rt, page, store, part(room, 0, n), h.days as usize)
}
