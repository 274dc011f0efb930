// A map made in a new file.
use super::refused::other;
use machine::Machine;
use map_lines::out_of;
use outward::{DONE, REFUSED, keep, write_line};
use page::texts::{part, put};
use tenant_map::make_map;
use versions::BYTES;

// The memory is longer than a map; the file is not.
pub fn make(rt: &impl Machine, page: &mut [u8], memory: &mut [u8]) -> u8 {
    match make_map(memory) {
        Ok(_) => {
            let status = keep(rt, part(memory, 0, BYTES));
            if status != DONE {
                return status;
            }
            let p = put(page, 0, b"made: ");
            let q = out_of(page, p, 0, b"32 versions");
            write_line(rt, page, q)
        }
        Err(x) => {
            other(rt, page, x);
            REFUSED
        }
    }
}
