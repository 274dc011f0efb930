// Quality, reason and load time: each has a form that leaves something out.
ghost use Rattle.std.specs.Prelude.{◌≡◌, ◌+◌, ◌≤◌, length};
ghost use Rattle.ground.specs.Room.{Put};
ghost use Rattle.format.specs.Block.{quality_text, reason_text, load_text};

use text::bytes::put_byte;
use text::digits::{digits_len, put_dec, put_digits};

const NO_METHOD: u8 = 255;

const NO_REASON: u16 = 65535;

pub fn quality_len(flag: u8, method: u8) -> usize
    ensures { (result ≡ length (quality_text flag method)) × (result ≤ 3) }
{
    if method == NO_METHOD { 1 } else { 3 }
}

pub fn put_quality(room: &mut [u8], at: usize, flag: u8, method: u8) -> usize
    requires { at + length (quality_text flag method) ≤ length room.old }
    ensures { Put room.old at (quality_text flag method) result room.new }
{
    let b = put_byte(room, at, flag);
    if method == NO_METHOD {
        b
    } else {
        put_digits(room, b, 2, u64::from(method))
    }
}

pub fn reason_len(reason: u16) -> usize
    ensures { (result ≡ length (reason_text reason)) × (result ≤ 20) }
{
    if reason == NO_REASON {
        0
    } else {
        digits_len(u64::from(reason))
    }
}

pub fn put_reason(room: &mut [u8], at: usize, reason: u16) -> usize
    requires { at + length (reason_text reason) ≤ length room.old }
    ensures { Put room.old at (reason_text reason) result room.new }
{
    if reason == NO_REASON {
        at
    } else {
        put_dec(room, at, u64::from(reason))
    }
}

pub fn load_len(time: u64) -> usize
    ensures { (result ≡ length (load_text time)) × (result ≤ 14) }
{
    if time == 0 { 0 } else { 14 }
}

pub fn put_load(room: &mut [u8], at: usize, time: u64) -> usize
    requires { at + length (load_text time) ≤ length room.old }
    ensures { Put room.old at (load_text time) result room.new }
{
    if time == 0 {
        at
    } else {
        put_digits(room, at, 14, time)
    }
}
