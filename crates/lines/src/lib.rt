// The records of a file as places: one pass over a record says where its plain bytes end, and how many commas stand among them. The pass goes by chunks of
// 64 and of 8 bytes, whose loops have no early exit, so that the compiler makes vector code of them.
#![tactic(auto)]

pub mod pieces;

ghost use Rattle.std.specs.Prelude.{◌≡◌, ◌+◌, ◌-◌, ◌≤◌, ◌<◌, length, take, drop};
ghost use Rattle.ground.specs.Lists.{all, span_of, other};
ghost use Rattle.format.specs.Bytes.{plain};
ghost use Rattle.format.specs.Cut.{fields};
ghost use Rattle.lines.specs.Places.{line_len, LineEnd, Unended, Scanned, Looked};

#[derive(Clone, Copy)]
pub struct Span {
    pub stop: usize,
    pub commas: usize,
}

// A record: where it ends, its first byte that is not plain (its end if there is none), and its commas before that byte.
#[derive(Clone, Copy)]
pub struct Found {
    pub end: usize,
    pub bad: usize,
    pub commas: usize,
}

fn is_plain(b: u8) -> bool
    ensures { result ≡ plain b }
{
    32 <= b && b <= 126
}

fn all_plain(s: &[u8]) -> bool
    ensures { result ≡ all plain s.now }
{
    let mut ok = true;
    for b in s {
        if !is_plain(*b) {
            ok = false;
        }
    }
    ok
}

// The counter is a byte, so that a vector counts sixteen at a time.
fn commas_in(s: &[u8]) -> u8
    requires { length s.now ≤ 255 }
    ensures { (result + 1 ≡ length (fields s.now)) × (result ≤ length s.now) }
{
    let mut n: u8 = 0;
    for b in s {
        if *b == b',' {
            n += 1;
        }
    }
    n
}

// Goes on by whole chunks, as long as they are plain. The place is what is answered, so the loop keeps it: a `for` over `chunks_exact` would count it beside itself.
fn chunks(s: &[u8], from: Span, size: usize) -> Span
    requires { Scanned s.now from.stop from.commas × (0 < size) × (size ≤ 255) }
    ensures { Scanned s.now result.stop result.commas }
{
    let n = s.len();
    let mut i = from.stop;
    let mut commas = from.commas;
    while size <= n - i {
        let e = i + size;
        let t = &s[i..e];
        if !all_plain(t) {
            return Span { stop: i, commas };
        }
        commas += usize::from(commas_in(t));
        i = e;
    }
    Span { stop: i, commas }
}

// Goes on byte by byte, to the first that is not plain.
fn bytewise(s: &[u8], from: Span) -> Span
    requires { Scanned s.now from.stop from.commas }
    ensures { Scanned s.now result.stop result.commas × (result.stop ≡ span_of plain s.now) }
{
    let mut commas = from.commas;
    for stop in from.stop..s.len() {
        let b = s[stop];
        if !is_plain(b) {
            return Span { stop, commas };
        }
        if b == b',' {
            commas += 1;
        }
    }
    Span {
        stop: s.len(),
        commas,
    }
}

// The plain bytes that s starts with: how many, and the commas among them.
fn plain_span(s: &[u8]) -> Span
    ensures { Scanned s.now result.stop result.commas × (result.stop ≡ span_of plain s.now) }
{
    let none = Span { stop: 0, commas: 0 };
    let long = chunks(s, none, 64);
    let short = chunks(s, long, 8);
    bytewise(s, short)
}

// How many bytes stand before the first CR LF, or all of them where there is none. Few bytes are a CR, so the next one is read only behind a CR.
fn line_len(s: &[u8]) -> usize
    ensures { (result ≡ line_len s.now) × (result ≤ length s.now) }
{
    for i in 0..s.len().saturating_sub(1) {
        if s[i] == b'\r' && s[i + 1] == b'\n' {
            return i;
        }
    }
    s.len()
}

// No CR among the bytes.
fn no_cr(s: &[u8]) -> bool
    ensures { result ≡ all (other 13) s.now }
{
    let mut ok = true;
    for b in s {
        if *b == b'\r' {
            ok = false;
        }
    }
    ok
}

// Goes on by whole chunks, as long as no CR stands in them; the place is kept by the loop, as in `chunks`.
fn past_chunks(s: &[u8], from: usize, size: usize) -> usize
    requires { Unended s.now from × (0 < size) }
    ensures { Unended s.now result }
{
    let n = s.len();
    let mut i = from;
    while size <= n - i {
        let e = i + size;
        if !no_cr(&s[i..e]) {
            return i;
        }
        i = e;
    }
    i
}

// Where the record that starts at a place ends: before its CR LF, or at the file's end where there is none. Nothing else is asked of its bytes, so it is
// looked for by chunks without a CR.
pub fn line_end(file: &[u8], at: usize) -> usize
    requires { at ≤ length file.now }
    ensures { LineEnd file.now at result }
{
    let s = &file[at..];
    let long = past_chunks(s, 0, 64);
    let short = past_chunks(s, long, 16);
    let near = at + short;
    near + line_len(&file[near..])
}

// The record that starts at a place. No plain byte begins a CR LF, so its end is looked for only from its first other byte on.
pub fn scan(file: &[u8], at: usize) -> Found
    requires { at ≤ length file.now }
    ensures { Looked file.now at result.end result.bad result.commas }
{
    let p = plain_span(&file[at..]);
    let bad = at + p.stop;
    let n = line_len(&file[bad..]);
    Found {
        end: bad + n,
        bad,
        commas: p.commas,
    }
}
