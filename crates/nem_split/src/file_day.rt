// A day of a file by its number.
ghost use Rattle.day_sums.specs.Sought.{Within};

use super::shown::{Day, show};
use day_rows::refused;
use day_sums::{DayAt, date_of, nmi_of, seek_day, suffix_of, sum_of};
use machine::Machine;
use outward::{REFUSED, warn};
use page::texts::part;
use records::{UNIT_OF_200, unit_in};
use splitter::split_day;
use wanted::by_number;

// The word that says which day it is.
const NUMBER: usize = 4;

const OUTPUTS: usize = 128;

// Day k, which stands there.
fn split_found(
    rt: &impl Machine,
    page: &mut [u8],
    map: &[u8],
    file: &[u8],
    k: usize,
    at: DayAt,
) -> u8
    requires { Within file.now at }
{
    let mut parts = [0u64; OUTPUTS];
    let answer = split_day(file, k, map, &mut parts);
    let day = Day {
        date: date_of(file, at),
        unit: unit_in(part(file, at.under.at, at.under.end), UNIT_OF_200),
        total: sum_of(file, at),
    };
    show(
        rt,
        page,
        map,
        nmi_of(file, at),
        suffix_of(file, at),
        day,
        answer,
        &parts,
    )
}

fn split_numbered(rt: &impl Machine, page: &mut [u8], map: &[u8], file: &[u8], k: usize) -> u8 {
    let sought = seek_day(file, k);
    match sought {
        Ok(at) => split_found(rt, page, map, file, k, at),
        Err(x) => {
            let p = refused(page, file, x);
            warn(rt, page, p);
            REFUSED
        }
    }
}

pub fn split(rt: &impl Machine, page: &mut [u8], map: &[u8], file: &[u8]) -> u8 {
    match by_number(rt, page, NUMBER) {
        Ok(k) => split_numbered(rt, page, map, file, k),
        Err(status) => status,
    }
}
