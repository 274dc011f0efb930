// Totals the channel of a number, where the file was accepted; and channel after channel.
#![tactic(auto)]

pub mod walk;

ghost use Rattle.std.specs.Prelude.{◌≡◌, ◌+◌, ◌≤◌, length, drop};
ghost use Rattle.format.specs.Answers.{totalled_as};
ghost use Rattle.format.specs.Total.{total_first, total_of};
ghost use Rattle.format.specs.File.{most, IsAccepted};
ghost use Rattle.channel.specs.Places.{totals_in, ChannelAhead, totalled, inside};

use day::walk::intervals_of;
use format::Refusal;
use sums::add_days;
use walk::{behind, find_channel, quantity_of};

// From where a channel is found: it stands behind `left` more channels from the record at `at` on.
#[derive(Clone, Copy)]
pub struct ChannelStart {
    pub at: usize,
    pub left: usize,
}

// A channel of a file, from its first byte to its CR LF: a 200 with days, or a 250 with a quantity.
#[derive(Clone, Copy)]
pub enum Channel {
    Days(usize, usize),
    Quantity(usize, usize),
}

// What a channel adds up to, if there is one.
fn total_place(file: &[u8], c: Option<Channel>) -> Result<u64, Refusal>
    requires { inside file.now c × (length file.now ≤ most) }
    ensures { totalled_as result ≡ total_first (totalled file.now c) }
{
    let Some(found) = c else {
        return Err(Refusal::bare(14));
    };
    match found {
        Channel::Quantity(a, e) => Ok(quantity_of(file, a, e)),
        Channel::Days(a, e) => Ok(add_days(file, e + 2, intervals_of(file, a, e))),
    }
}

// What a channel adds up to, where it stands, and from where the channel behind it is found.
#[derive(Clone, Copy)]
pub struct ChannelTurn {
    pub answer: Result<u64, Refusal>,
    pub place: Option<Channel>,
    pub next: ChannelStart,
}

// The channel of a number from 0, in a file that was accepted: what `total` answers of it. Where it is found was noted by a walk that came by, or by this
// function at the channel before, so that channel after channel is totalled and the file is checked once.
pub fn total_noted(file: &[u8], channel: usize, from: ChannelStart) -> ChannelTurn
    requires { IsAccepted file.now × ChannelAhead file.now channel from }
    ensures is { totalled_as result.answer ≡ total_of file.now channel }
    ensures place { totalled file.now result.place ≡ drop channel (totals_in file.now) }
    ensures inside { inside file.now result.place }
    ensures next { ChannelAhead file.now (channel + 1) result.next }
{
    let place = find_channel(file, channel, from);
    let next = behind(file, place);
    let answer = total_place(file, place);
    ChannelTurn {
        answer,
        place,
        next,
    }
}
