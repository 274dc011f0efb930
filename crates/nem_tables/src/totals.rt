// What each channel adds up to.
ghost use Rattle.format.specs.File.{IsAccepted};
ghost use Rattle.channel.specs.Places.{ChannelAhead};

use channel::{ChannelStart, total_noted};
use channel_rows::{headed, placed};
use checking::tour::check_and_note;
use explain::refused::explained;
use machine::Machine;
use outward::{DONE, REFUSED, warn, write};

// The rows of all channels, one after the other. Where there is no channel k, there is none behind it.
fn rows(rt: &impl Machine, page: &mut [u8], file: &[u8], channels: usize, first: ChannelStart) -> u8
    requires { IsAccepted file.now × ChannelAhead file.now 0 first }
{
    let mut from = first;
    for k in 0..channels {
        let t = total_noted(file, k, from);
        let place = t.place;
        let answer = t.answer;
        let Ok(total) = answer else {
            return DONE;
        };
        let p = placed(page, file, k, place, total);
        let status = write(rt, page, p);
        if status != DONE {
            return status;
        }
        from = t.next;
    }
    DONE
}

pub fn show(rt: &impl Machine, page: &mut [u8], file: &[u8]) -> u8 {
    let noted = check_and_note(file, 0, 0);
    let answer = noted.answer;
    let first = noted.channel;
    match answer {
        Ok(c) => {
            let p = headed(page);
            write(rt, page, p);
            rows(rt, page, file, c.channels, first)
        }
        Err(x) => {
            let p = explained(page, 0, file, x);
            warn(rt, page, p);
            REFUSED
        }
    }
}
