// Marks: compared, measured and written. A mark is a tag, and its description stands in the lent text.
#![tactic(auto)]

ghost use Rattle.std.specs.Prelude.{◌≡◌, true, ◌+◌, ◌≤◌, length, take, drop};
ghost use Rattle.ground.specs.Lists.{same};
ghost use Rattle.ground.specs.Room.{Put};
ghost use Rattle.format.specs.Quality.{same_mark};
ghost use Rattle.format.specs.Block.{mark_text};
ghost use Rattle.text.specs.Inside.{inside};
ghost use Rattle.fit.specs.Tags.{mark_of, tag_inside, fit_tag};

use field_texts::marks::{put_quality, put_reason, quality_len, reason_len};
use format::Tag;
use leaf::bytes::same_bytes;
use text::bytes::{put_byte, put_part};

// Two descriptions have the same bytes, wherever they stand in the text. Empty ones may start anywhere, so nothing is cut out for them.
fn same_part(text: &[u8], s: usize, n: usize, t: usize, m: usize) -> bool
    requires { (inside text.now s n ≡ true) × (inside text.now t m ≡ true) }
    ensures { result ≡ same (take n (drop s text.now)) (take m (drop t text.now)) }
{
    n == m && (n == 0 || same_bytes(&text[s..s + n], &text[t..t + m]))
}

// Two tags say the same mark.
#[tactic(auto, using(crate::proofs::OneMark::marks), unfolding(fit::specs::Tags::tag_inside, format::specs::Quality::same_mark))]
pub fn same_mark(text: &[u8], a: Tag, b: Tag) -> bool
    requires { (tag_inside text.now a ≡ true) × (tag_inside text.now b ≡ true) }
    ensures { result ≡ same_mark (mark_of text.now a) (mark_of text.now b) }
{
    a.flag == b.flag
        && a.method == b.method
        && a.reason == b.reason
        && same_part(text, a.start, a.length, b.start, b.length)
}

pub fn mark_len(text: &[u8], t: Tag) -> usize
    requires { fit_tag text.now t ≡ true }
    ensures { (result ≡ length (mark_text (mark_of text.now t))) × (result ≤ 265) }
{
    let q = quality_len(t.flag, t.method);
    let r = reason_len(t.reason);
    q + r + t.length + 2
}

pub fn put_mark(room: &mut [u8], at: usize, text: &[u8], t: Tag) -> usize
    requires { (fit_tag text.now t ≡ true) × (at + length (mark_text (mark_of text.now t)) ≤ length room.old) }
    ensures { Put room.old at (mark_text (mark_of text.now t)) result room.new }
{
    let p1 = put_quality(room, at, t.flag, t.method);
    let p2 = put_byte(room, p1, b',');
    let p3 = put_reason(room, p2, t.reason);
    let p4 = put_byte(room, p3, b',');
    put_part(room, p4, text, t.start, t.length)
}
