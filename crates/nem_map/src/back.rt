// A version with the entries of an earlier one.
use super::appended::keep_appended;
use super::asked::{FIRST, date, version};
use super::refused::of_going_back;
use machine::Machine;
use outward::{FAILED, REFUSED};
use tenant_map::back_to;

fn go_back(rt: &impl Machine, page: &mut [u8], map: &mut [u8], k: u64, first: u32) -> u8 {
    match back_to(map, k as usize, first) {
        Ok(_) => keep_appended(rt, page, map),
        Err(x) => {
            of_going_back(rt, page, x, map);
            REFUSED
        }
    }
}

pub fn back(rt: &impl Machine, page: &mut [u8], map: &mut [u8]) -> u8 {
    let Some(k) = version(rt, page, FIRST) else {
        return FAILED;
    };
    match date(rt, page, FIRST + 1) {
        Some(first) => go_back(rt, page, map, k, first),
        None => FAILED,
    }
}
