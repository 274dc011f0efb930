// The 300 of a day block, but for its 400s: whether the day's unit, date and times are fit, and the pieces that the record is written in.
#![tactic(auto)]

ghost use Rattle.std.specs.Prelude.{◌≡◌, true, ◌++◌, ◌+◌, ◌≤◌, length};
ghost use Rattle.ground.specs.Room.{Put};
ghost use Rattle.ground.specs.Text.{bytes};
ghost use Rattle.format.specs.Block.{mark_text};
ghost use Rattle.fit.specs.Tags.{mark_of, fit_tag};
ghost use Rattle.heads.specs.Heads.{front_text, times_text, fit_head};

use date_rules::calendar::{is_date, is_time};
use field_texts::marks::put_load;
use format::{DayHead, Tag};
use marks::put_mark;
use text::bytes::{put_byte, put_bytes};
use text::digits::put_digits;
use units::is_unit;
use value_texts::put_values;

// The unit is one, and the date and the times meet their rules; a load time of 0 is none.
#[tactic(auto, unfolding(crate::specs::Heads::fit_head))]
pub fn fit_head(day: DayHead) -> bool
    ensures { result ≡ fit_head day }
{
    is_unit(day.unit)
        && is_date(u64::from(day.date))
        && is_time(day.update)
        && (day.load == 0 || is_time(day.load))
}

// The 300 up to its values.
pub fn put_front(room: &mut [u8], date: u32, values: &[u64]) -> usize
    requires { length (front_text date values.now) ≤ length room.old }
    ensures { Put room.old 0 (front_text date values.now) result room.new }
{
    let p1 = put_bytes(room, 0, b"300,");
    let p2 = put_digits(room, p1, 8, u64::from(date));
    let p3 = put_byte(room, p2, b',');
    put_values(room, p3, values)
}

// And from the comma behind its description on.
fn put_times(room: &mut [u8], at: usize, update: u64, load: u64) -> usize
    requires { at + length (times_text update load) ≤ length room.old }
    ensures { Put room.old at (times_text update load) result room.new }
{
    let p1 = put_byte(room, at, b',');
    let p2 = put_digits(room, p1, 14, update);
    let p3 = put_byte(room, p2, b',');
    let p4 = put_load(room, p3, load);
    put_bytes(room, p4, b"\r\n")
}

// What stands behind the values where all marks are the one of the tag.
pub fn put_uniform(room: &mut [u8], at: usize, text: &[u8], t: Tag, day: DayHead) -> usize
    requires { (fit_tag text.now t ≡ true) × (at + length (mark_text (mark_of text.now t) ++ times_text day.update day.load) ≤ length room.old) }
    ensures { Put room.old at (mark_text (mark_of text.now t) ++ times_text day.update day.load) result room.new }
{
    let p = put_mark(room, at, text, t);
    put_times(room, p, day.update, day.load)
}

// And where they differ, up to the 400s.
pub fn put_varied(room: &mut [u8], at: usize, day: DayHead) -> usize
    requires { at + length (bytes "V,," ++ times_text day.update day.load) ≤ length room.old }
    ensures { Put room.old at (bytes "V,," ++ times_text day.update day.load) result room.new }
{
    let p = put_bytes(room, at, b"V,,");
    put_times(room, p, day.update, day.load)
}
