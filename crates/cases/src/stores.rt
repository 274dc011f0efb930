// The cases of a store, but for the one that hands in a day. The probe has one memory for all of them, of which `size` bytes are lent.
use calls::{PLACES, lent};
use input::bytes::{Cursor, fill_both, fill_line};
use input::numbers::{head, head_alone};
use input::{Going, text};
use machine::Machine;
use output::write;
use page::items::u64_at;
use page::texts::{number, part, put};
use store_calls::{delete, get, make, slot};

// The most bytes that an NMI or a suffix can be handed in as.
const MOST_KEY: usize = 64;

// A word, how many bytes are lent, and the line's end.
fn lent_line(page: &mut [u8], at: usize, word: &[u8], size: usize) -> usize {
    let p = put(page, at, word);
    let q = number(page, p, size as u64);
    put(page, q, b"\n")
}

pub fn memory_case(
    rt: &impl Machine,
    buf: &mut [u8],
    c: Cursor,
    memory: &mut [u8],
    page: &mut [u8],
    at: usize,
) -> Option<Going> {
    let mut numbers = [0u64; 1];
    let after = head(rt, buf, c, b"mory ", &mut numbers)?;
    let size = numbers[0] as usize;
    let end = fill_line(rt, buf, after, size, memory)?;
    Some(Going::Lent(end, lent_line(page, at, b"memory ", size), size))
}

// The memory behind its line, which is written out first, with what stands before it on the page.
pub fn bytes_case(
    rt: &impl Machine,
    buf: &mut [u8],
    c: Cursor,
    memory: &[u8],
    size: usize,
    page: &mut [u8],
    at: usize,
) -> Option<Going> {
    let after = text(rt, buf, c, b"tes\n\n")?;
    let p = lent_line(page, at, b"bytes ", size);
    write(rt, page, p);
    write(rt, memory, size);
    Some(Going::On(after, 0))
}

// Behind the word and its space, which tells it from the making of a map.
pub fn make_case(
    rt: &impl Machine,
    buf: &mut [u8],
    c: Cursor,
    memory: &mut [u8],
    size: usize,
    copy: &mut [u8],
    page: &mut [u8],
    at: usize,
) -> Option<Going> {
    let mut numbers = [0u64; 1];
    let after = head_alone(rt, buf, c, b"", &mut numbers)?;
    let slots = u32::try_from(numbers[0]).ok()?;
    Some(Going::On(
        after,
        make(lent(memory, size, copy.len()), copy, slots, page, at),
    ))
}

pub fn slot_case(
    rt: &impl Machine,
    buf: &mut [u8],
    c: Cursor,
    memory: &[u8],
    size: usize,
    page: &mut [u8],
    at: usize,
) -> Option<Going> {
    let mut numbers = [0u64; 1];
    let after = head_alone(rt, buf, c, b"ot ", &mut numbers)?;
    let k = numbers[0] as usize;
    Some(Going::On(after, slot(part(memory, 0, size), k, page, at)))
}

// The numbers of a case that names a key, and behind its first line NMI and suffix, whose lengths are the first two of them.
fn key_in(
    rt: &impl Machine,
    buf: &mut [u8],
    c: Cursor,
    word: &[u8],
    numbers: &mut [u64],
    nmi: &mut [u8],
    suffix: &mut [u8],
) -> Option<Cursor> {
    let behind = head(rt, buf, c, word, numbers)?;
    fill_both(
        rt,
        buf,
        behind,
        u64_at(numbers, 0) as usize,
        nmi,
        u64_at(numbers, 1) as usize,
        suffix,
    )
}

// The day of the key, where its date and the lists' places are ones that can be lent.
fn get_named(
    memory: &[u8],
    numbers: &[u64],
    nmi: &[u8],
    suffix: &[u8],
    after: Cursor,
    page: &mut [u8],
    at: usize,
) -> Option<Going> {
    let n = u64_at(numbers, 0) as usize;
    let k = u64_at(numbers, 1) as usize;
    let date = u32::try_from(u64_at(numbers, 2)).ok()?;
    let w = u64_at(numbers, 3) as usize;
    if PLACES < w {
        return None;
    }
    Some(Going::On(
        after,
        get(
            memory,
            part(nmi, 0, n),
            part(suffix, 0, k),
            date,
            w,
            page,
            at,
        ),
    ))
}

// The numbers, NMI and suffix are lent to work in.
fn get_with(
    rt: &impl Machine,
    buf: &mut [u8],
    c: Cursor,
    memory: &[u8],
    size: usize,
    page: &mut [u8],
    at: usize,
    numbers: &mut [u64],
    nmi: &mut [u8],
    suffix: &mut [u8],
) -> Option<Going> {
    let after = key_in(rt, buf, c, b"et ", numbers, nmi, suffix)?;
    get_named(part(memory, 0, size), numbers, nmi, suffix, after, page, at)
}

pub fn get_case(
    rt: &impl Machine,
    buf: &mut [u8],
    c: Cursor,
    memory: &[u8],
    size: usize,
    page: &mut [u8],
    at: usize,
) -> Option<Going> {
    let mut numbers = [0u64; 4];
    let mut nmi = [0u8; MOST_KEY];
    let mut suffix = [0u8; MOST_KEY];
    get_with(
        rt,
        buf,
        c,
        memory,
        size,
        page,
        at,
        &mut numbers,
        &mut nmi,
        &mut suffix,
    )
}

// The day of the key, where its date is one that can be handed in.
fn delete_named(
    memory: &mut [u8],
    size: usize,
    copy: &mut [u8],
    numbers: &[u64],
    nmi: &[u8],
    suffix: &[u8],
    after: Cursor,
    page: &mut [u8],
    at: usize,
) -> Option<Going> {
    let n = u64_at(numbers, 0) as usize;
    let k = u64_at(numbers, 1) as usize;
    let date = u32::try_from(u64_at(numbers, 2)).ok()?;
    Some(Going::On(
        after,
        delete(
            lent(memory, size, copy.len()),
            copy,
            part(nmi, 0, n),
            part(suffix, 0, k),
            date,
            page,
            at,
        ),
    ))
}

// The numbers, NMI and suffix are lent to work in.
fn delete_with(
    rt: &impl Machine,
    buf: &mut [u8],
    c: Cursor,
    memory: &mut [u8],
    size: usize,
    copy: &mut [u8],
    page: &mut [u8],
    at: usize,
    numbers: &mut [u64],
    nmi: &mut [u8],
    suffix: &mut [u8],
) -> Option<Going> {
    let after = key_in(rt, buf, c, b"lete ", numbers, nmi, suffix)?;
    delete_named(memory, size, copy, numbers, nmi, suffix, after, page, at)
}

pub fn delete_case(
    rt: &impl Machine,
    buf: &mut [u8],
    c: Cursor,
    memory: &mut [u8],
    size: usize,
    copy: &mut [u8],
    page: &mut [u8],
    at: usize,
) -> Option<Going> {
    let mut numbers = [0u64; 3];
    let mut nmi = [0u8; MOST_KEY];
    let mut suffix = [0u8; MOST_KEY];
    delete_with(
        rt,
        buf,
        c,
        memory,
        size,
        copy,
        page,
        at,
        &mut numbers,
        &mut nmi,
        &mut suffix,
    )
}
