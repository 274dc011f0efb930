// The used slots of a store as a table, a line for each, and a line of what it holds.
use kept_files::no_store;
use listing::slots::{headings, held, row};
use machine::Machine;
use opening::open_store;
use outward::{DONE, REFUSED, write_line};
use page::texts::part;
use records::text_at;
use settling::live_bytes;
use slot_reading::read_slot;
use store::Header;
use units::Spelling;

fn headed(rt: &impl Machine, page: &mut [u8]) -> u8 {
    let p = headings(page, 0);
    write_line(rt, page, p)
}

// The line of a slot, none where it is free.
fn line(rt: &impl Machine, page: &mut [u8], store: &[u8], slot: usize) -> u8 {
    let Ok(Some(day)) = read_slot(store, slot) else {
        return DONE;
    };
    let s: Spelling = units::name(day.unit);
    let bytes = s.bytes;
    let p = row(
        page,
        0,
        slot,
        text_at(store, day.nmi, 10),
        text_at(store, day.suffix, 2),
        day.date as u64,
        day.length as u64,
        part(&bytes, 0, s.length),
        day.update,
        part(store, day.start, day.end).len(),
    );
    write_line(rt, page, p)
}

fn lines(rt: &impl Machine, page: &mut [u8], store: &[u8], slots: usize) -> u8 {
    for slot in 0..slots {
        let status = line(rt, page, store, slot);
        if status != DONE {
            return status;
        }
    }
    DONE
}

// The blocks have no more bytes than the room.
fn free(room: usize, used: usize) -> usize {
    room.saturating_sub(used)
}

fn last_line(rt: &impl Machine, page: &mut [u8], store: &[u8], h: Header) -> u8 {
    let used = live_bytes(store, h, h.map);
    let p = held(
        page,
        0,
        h.days as usize,
        h.slots as usize,
        used,
        free(h.size as usize, used),
    );
    write_line(rt, page, p)
}

pub fn list(rt: &impl Machine, page: &mut [u8], store: &[u8]) -> u8 {
    let Some(h) = open_store(store) else {
        no_store(rt, page);
        return REFUSED;
    };
    headed(rt, page);
    let status = lines(rt, page, store, h.slots as usize);
    if status != DONE {
        return status;
    }
    last_line(rt, page, store, h)
}
