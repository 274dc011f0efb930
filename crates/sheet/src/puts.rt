// The case that hands in a day for the store in the lent memory, of which `size` bytes are lent. Its lists and its text are read as those of a day to be written.
use super::given_lists::{bytes_of, halves_of, sizes_of};
use super::{
    ALL_PLACES, MOST_TEXT, Sheet, are_narrow, can_be, day_of, least, lists_in, sheet_of, stretch,
};
use calls::{PLACES, lent};
use format::DayHead;
use input::Going;
use input::bytes::{Cursor, fill_both, fill_line};
use input::numbers::head;
use machine::Machine;
use page::texts::part;
use store_calls::put;

// The most bytes that an NMI or a suffix can be handed in as.
const MOST_KEY: usize = 64;

// The day's places in lists of their type.
fn put_places(
    memory: &mut [u8],
    size: usize,
    copy: &mut [u8],
    nmi: &[u8],
    suffix: &[u8],
    s: Sheet,
    lists: &[u64],
    flags: &[u8],
    methods: &[u8],
    reasons: &[u16],
    text: &[u8],
    page: &mut [u8],
    at: usize,
) -> usize {
    let starts = sizes_of(stretch(lists, 4, s.starts));
    let lengths = sizes_of(stretch(lists, 5, s.lengths));
    let a = least(s.starts, PLACES);
    let l = least(s.lengths, PLACES);
    put(
        lent(memory, size, copy.len()),
        copy,
        nmi,
        suffix,
        day_of(s),
        stretch(lists, 0, s.values),
        flags,
        methods,
        reasons,
        &starts[..a],
        &lengths[..l],
        text,
        page,
        at,
    )
}

// The day's marks in lists of their types.
fn put_answer(
    memory: &mut [u8],
    size: usize,
    copy: &mut [u8],
    nmi: &[u8],
    suffix: &[u8],
    s: Sheet,
    lists: &[u64],
    text: &[u8],
    page: &mut [u8],
    at: usize,
) -> usize {
    let flags = bytes_of(stretch(lists, 1, s.flags));
    let methods = bytes_of(stretch(lists, 2, s.methods));
    let reasons = halves_of(stretch(lists, 3, s.reasons));
    let f = least(s.flags, PLACES);
    let m = least(s.methods, PLACES);
    let r = least(s.reasons, PLACES);
    put_places(
        memory,
        size,
        copy,
        nmi,
        suffix,
        s,
        lists,
        &flags[..f],
        &methods[..m],
        &reasons[..r],
        text,
        page,
        at,
    )
}

// The lists and the text behind the key.
fn given_in(
    rt: &impl Machine,
    buf: &mut [u8],
    c: Cursor,
    s: Sheet,
    lists: &mut [u64],
    text: &mut [u8],
) -> Option<Cursor> {
    let a = lists_in(rt, buf, c, s, lists)?;
    if !are_narrow(s, lists) {
        return None;
    }
    fill_line(rt, buf, a, s.text, text)
}

// They are lent to work in.
fn day_with(
    rt: &impl Machine,
    buf: &mut [u8],
    c: Cursor,
    nmi: &[u8],
    suffix: &[u8],
    s: Sheet,
    memory: &mut [u8],
    size: usize,
    copy: &mut [u8],
    page: &mut [u8],
    at: usize,
    lists: &mut [u64],
    text: &mut [u8],
) -> Option<Going> {
    let after = given_in(rt, buf, c, s, lists, text)?;
    Some(Going::On(
        after,
        put_answer(
            memory,
            size,
            copy,
            nmi,
            suffix,
            s,
            lists,
            part(text, 0, s.text),
            page,
            at,
        ),
    ))
}

fn day_in(
    rt: &impl Machine,
    buf: &mut [u8],
    c: Cursor,
    nmi: &[u8],
    suffix: &[u8],
    s: Sheet,
    memory: &mut [u8],
    size: usize,
    copy: &mut [u8],
    page: &mut [u8],
    at: usize,
) -> Option<Going> {
    let mut lists = [0u64; ALL_PLACES];
    let mut text = [0u8; MOST_TEXT];
    day_with(
        rt, buf, c, nmi, suffix, s, memory, size, copy, page, at, &mut lists, &mut text,
    )
}

// NMI and suffix are lent to work in.
fn put_with(
    rt: &impl Machine,
    buf: &mut [u8],
    c: Cursor,
    n: usize,
    k: usize,
    s: Sheet,
    memory: &mut [u8],
    size: usize,
    copy: &mut [u8],
    page: &mut [u8],
    at: usize,
    nmi: &mut [u8],
    suffix: &mut [u8],
) -> Option<Going> {
    let b = fill_both(rt, buf, c, n, nmi, k, suffix)?;
    day_in(
        rt,
        buf,
        b,
        part(nmi, 0, n),
        part(suffix, 0, k),
        s,
        memory,
        size,
        copy,
        page,
        at,
    )
}

// Behind the first line.
fn put_behind(
    rt: &impl Machine,
    buf: &mut [u8],
    c: Cursor,
    n: usize,
    k: usize,
    s: Sheet,
    memory: &mut [u8],
    size: usize,
    copy: &mut [u8],
    page: &mut [u8],
    at: usize,
) -> Option<Going> {
    let mut nmi = [0u8; MOST_KEY];
    let mut suffix = [0u8; MOST_KEY];
    put_with(
        rt,
        buf,
        c,
        n,
        k,
        s,
        memory,
        size,
        copy,
        page,
        at,
        &mut nmi,
        &mut suffix,
    )
}

pub fn put_case(
    rt: &impl Machine,
    buf: &mut [u8],
    c: Cursor,
    memory: &mut [u8],
    size: usize,
    copy: &mut [u8],
    page: &mut [u8],
    at: usize,
) -> Option<Going> {
    let mut numbers = [0u64; 14];
    let a = head(rt, buf, c, b"ut ", &mut numbers)?;
    let s = sheet_of([
        numbers[2],
        numbers[3],
        numbers[4],
        numbers[5],
        numbers[6],
        0,
        numbers[7],
        numbers[8],
        numbers[9],
        numbers[10],
        numbers[11],
        numbers[12],
        numbers[13],
    ]);
    if !can_be(s) {
        return None;
    }
    put_behind(
        rt,
        buf,
        a,
        numbers[0] as usize,
        numbers[1] as usize,
        s,
        memory,
        size,
        copy,
        page,
        at,
    )
}
