// A row for each 250 of a NEM13 file.
ghost use Rattle.channel.specs.Places.{ChannelAhead};

use super::sheet::{Sheet, behind};
use channel::{Channel, ChannelStart, walk};
use csv_rows::rows::{front, heading, reading};
use leaf::digits::digits;
use machine::Machine;
use outward::{DONE, write};
use page::texts::part;
use records::reads::{Place, read_of};
use says::value_of;

// A field of a record.
fn text(record: &[u8], field: Place) -> &[u8] {
    part(record, field.from, field.to)
}

// A time of an accepted record.
fn time_in(record: &[u8], field: Place) -> u64 {
    match digits(text(record, field), 14, 14) {
        Some(t) => t,
        None => 0,
    }
}

// The row of a 250.
fn row(rt: &impl Machine, page: &mut [u8], at: usize, record: &[u8]) -> Sheet {
    let read = read_of(record);
    let mut head = [0u8; 64];
    let h = front(
        &mut head,
        0,
        text(record, read.nmi),
        text(record, read.suffix),
        text(record, read.unit),
    );
    let p = reading(
        page,
        at,
        part(&head, 0, h),
        time_in(record, read.previous),
        time_in(record, read.current),
        value_of(text(record, read.quantity)),
        text(record, read.quality),
        text(record, read.reason),
        text(record, read.description),
    );
    behind(rt, page, p)
}

// The channel at a place.
fn placed(
    rt: &impl Machine,
    page: &mut [u8],
    at: usize,
    file: &[u8],
    place: Option<Channel>,
) -> Sheet {
    let Some(Channel::Quantity(a, e)) = place else {
        return Sheet { at, status: DONE };
    };
    row(rt, page, at, part(file, a, e))
}

// Channel after channel.
pub fn show(
    rt: &impl Machine,
    page: &mut [u8],
    file: &[u8],
    channels: usize,
    first: ChannelStart,
) -> u8
    requires { ChannelAhead file.now 0 first }
{
    let mut at = heading(page, 0);
    let mut from = first;
    for k in 0..channels {
        let place = walk::find_channel(file, k, from);
        let sheet = placed(rt, page, at, file, place);
        if sheet.status != DONE {
            return sheet.status;
        }
        at = sheet.at;
        from = walk::behind(file, place);
    }
    write(rt, page, at)
}
