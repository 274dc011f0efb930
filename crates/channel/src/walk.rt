// The walk to a channel.
ghost use Rattle.std.specs.Prelude.{◌≡◌, ◌≤◌, length, drop};
ghost use Rattle.ground.specs.Lists.{part};
ghost use Rattle.format.specs.Cut.{fields};
ghost use Rattle.format.specs.Records.{quantity_in};
ghost use Rattle.channel.specs.Places.{totals_in, ChannelAhead, totalled, inside, Behind};

use super::{Channel, ChannelStart};
use day::fields::skip;
use lines::line_end;
use lines::pieces::field_at;
use says::{kind_at, value_of};

// The quantity of a 250, as its text has it: multiplier and rollover of the two reads aren't in the file.
pub fn quantity_of(file: &[u8], a: usize, e: usize) -> u64
    requires { (a ≤ e) × (e ≤ length file.now) }
    ensures { result ≡ quantity_in (fields (part file.now a e)) }
{
    let x = skip(file, a, e, 18);
    let f = field_at(file, x, e);
    let b = f.to;
    value_of(&file[x..b])
}

// The channel of a number from 0.
pub fn find_channel(file: &[u8], channel: usize, from: ChannelStart) -> Option<Channel>
    requires { ChannelAhead file.now channel from }
    ensures is { totalled file.now result ≡ drop channel (totals_in file.now) }
    ensures inside { inside file.now result }
{
    let mut at = from.at;
    let mut left = from.left;
    loop {
        let e = line_end(file, at);
        if e == file.len() {
            return None;
        }
        let a = at;
        at = e + 2;
        let k = kind_at(file, a, e);
        if k == 200 {
            if left == 0 {
                return Some(Channel::Days(a, e));
            }
            left -= 1;
        } else if k == 250 {
            if left == 0 {
                return Some(Channel::Quantity(a, e));
            }
            left -= 1;
        }
    }
}

// From where the channel behind one is found: behind its record, or at the end of the file where there was none.
pub fn behind(file: &[u8], c: Option<Channel>) -> ChannelStart
    requires { inside file.now c }
    ensures { Behind file.now c result }
{
    let Some(found) = c else {
        return ChannelStart {
            at: file.len(),
            left: 0,
        };
    };
    match found {
        Channel::Days(_, e) => ChannelStart { at: e + 2, left: 0 },
        Channel::Quantity(_, e) => ChannelStart { at: e + 2, left: 0 },
    }
}
