// The entries for a file that is edited, as the probe calls them: find_day, which says where a day's block stands, and replace_day, which puts another in its
// place. The answer is put on a page as a line, as `calls` does it, and the line says so where something that was lent has changed and should not have.
#![tactic(auto)]

mod said_lines;

ghost use Rattle.std.specs.Prelude.{◌≡◌, ◌≤◌, length, drop};
ghost use Rattle.ground.specs.Lists.{same};
ghost use Rattle.format.specs.Day.{over};
ghost use Rattle.page.specs.Filled.{Filled};
ghost use Rattle.whose.specs.Whose.{find_of};
ghost use Rattle.replacing.specs.Replace.{replaced_as, replace_of};
ghost use Rattle.calls.specs.Lines.{answer_line, bytes_in};
ghost use Rattle.edit_calls.specs.Lines.{shown_in, replace_text};

use calls::kept::end_line;
use format::Refusal;
use leaf::bytes::same_bytes;
use page::texts::{part, put};
use replacing::replace_day;
use text::bytes::put_bytes;
use whose::find_day;

// Where day k stands.
pub fn find(file: &[u8], k: usize, page: &mut [u8], at: usize) -> usize
    ensures { Filled page.old at (answer_line (find_of file.now k)) result page.new }
{
    let p = said_lines::found(page, at, find_day(file, k));
    put(page, p, b"\n")
}

// ---- a day replaced

// The place behind the line on the page, and how many bytes of the room are answered behind it.
#[derive(Clone, Copy)]
pub struct Edited {
    pub at: usize,
    pub bytes: usize,
}

// The new length of a file that was edited.
fn new_length(x: Result<usize, Refusal>) -> usize
    ensures { result ≡ bytes_in (replaced_as x) }
{
    match x {
        Ok(n) => n,
        Err(_) => 0,
    }
}

// All of a room of n bytes is answered, where the file in it was edited.
fn shown(x: Result<usize, Refusal>, n: usize) -> usize
    ensures { result ≡ shown_in (replaced_as x) n }
{
    match x {
        Ok(_) => n,
        Err(_) => 0,
    }
}

// Whether a room is as it was, from a place on.
pub fn is_kept(room: &[u8], was: &[u8], from: usize) -> bool
    ensures { result ≡ same (drop from room.now) (drop from was.now) }
{
    same_bytes(part(room, from, room.len()), part(was, from, was.len()))
}

// The block into the place of day k's, in a room with a file of n bytes in front. The room is copied first, so that what has changed in it is seen.
pub fn replace(
    room: &mut [u8],
    copy: &mut [u8],
    n: usize,
    k: usize,
    block: &[u8],
    page: &mut [u8],
    at: usize,
) -> Edited
    requires { length room.old ≤ length copy.old }
    ensures line { Filled page.old at (replace_text room.old n k block.now) result.at page.new }
    ensures bytes { result.bytes ≡ shown_in (replace_of room.old n k block.now).answer (length room.old) }
    ensures left { room.new ≡ (replace_of room.old n k block.now).room }
    ensures copied { copy.new ≡ over room.old copy.old }
{
    let whole = room.len();
    put_bytes(copy, 0, room);
    let x = replace_day(room, n, k, block);
    let p = said_lines::replaced(page, at, x);
    let kept = is_kept(room, part(copy, 0, whole), new_length(x));
    Edited {
        at: end_line(page, p, kept),
        bytes: shown(x, whole),
    }
}
