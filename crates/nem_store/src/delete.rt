// The day of a key deleted.
use deleting::delete_day;
use kept_files::no_day;
use machine::Machine;
use outward::{DONE, REFUSED, keep, write_line};
use store_lines::deleted;

pub fn delete(
    rt: &impl Machine,
    page: &mut [u8],
    store: &mut [u8],
    nmi: &[u8],
    suffix: &[u8],
    date: u32,
) -> u8 {
    match delete_day(store, nmi, suffix, date) {
        Ok(days) => {
            let status = keep(rt, store);
            if status != DONE {
                return status;
            }
            let p = deleted(page, 0, days);
            write_line(rt, page, p)
        }
        Err(x) => {
            no_day(rt, page, x, nmi, suffix, date);
            REFUSED
        }
    }
}
