// A block on its own: bytes held to what one day block has to be behind a 200 of an interval length and a unit, without a date before it. The block is a part
// of longer memory, from a place to the memory's end, so that what is found in it can be placed there; its refusals count from its start.
#![tactic(auto)]

ghost use Rattle.std.specs.Prelude.{◌≡◌, not, ◌&&◌, ◌||◌, ◌≤◌, length, drop, eqb};
ghost use Rattle.ground.specs.Lists.{part};
ghost use Rattle.format.specs.Records.{date_in, update_in, load_in};
ghost use Rattle.format.specs.Cut.{rest, lines, fields};
ghost use Rattle.format.specs.Order.{in_day};
ghost use Rattle.format.specs.Answers.{refused_as, block_checked_as};
ghost use Rattle.format.specs.File.{block_check_of};
ghost use Rattle.lines.specs.Places.{Looked};
ghost use Rattle.follows.specs.Tests.{expected_as};
ghost use Rattle.order.specs.State.{seen};
ghost use Rattle.alone.specs.Walk.{refused_at, is_foreign_here, first_walk, date_said, Walking, Stands, Turned, Ended, Entire, WalkedAs};

use day::fields::skip;
use day::head::{head_at, times_at};
use follows::{in_day, is_open};
use format::{BlockChecked, Refusal};
use lines::Found;
use number_rules::intervals;
use order::State;
use says::kind_at;
use walker::record_at;

// The walk over a block before a record: where that starts in the memory, how many records are behind, and the state.
#[derive(Clone, Copy)]
pub struct BlockWalk {
    pub at: usize,
    pub records: usize,
    pub state: State,
}

// What a walk over a whole block comes to: how many records the block has, and where its 300 ends.
#[derive(Clone, Copy)]
pub struct Walked {
    pub records: usize,
    pub end: usize,
}

// What a block's 300 says beside its values and its mark.
#[derive(Clone, Copy)]
pub struct Said {
    pub date: u32,
    pub update: u64,
    pub load: u64,
}

// Under the block's day, a record that is neither a 400 nor a 500.
fn leaves_day(expect: u64, kind: u64) -> bool
    ensures { result ≡ in_day (expected_as expect) && not (eqb kind 400 || eqb kind 500) }
{
    if !in_day(expect) {
        return false;
    }
    if kind == 400 {
        return false;
    }
    kind != 500
}

// The record is no part of the block, which is asked behind 3 and 10.
fn is_foreign(memory: &[u8], at: usize, found: Found, st: State) -> bool
    requires { Looked memory.now at found.end found.bad found.commas }
    ensures { result ≡ is_foreign_here (seen memory.now st) (part memory.now at found.end) }
{
    let e = found.end;
    if found.bad < e {
        return false;
    }
    let kind = kind_at(memory, at, e);
    if is_open(st.expect, st.next, st.n, kind) {
        return false;
    }
    leaves_day(st.expect, kind)
}

// What the 300 of n intervals from a to e says.
fn said_at(memory: &[u8], a: usize, e: usize, n: usize) -> Said
    requires { (a ≤ e) × (e ≤ length memory.now) }
    ensures date { result.date ≡ date_in (fields (part memory.now a e)) }
    ensures update { result.update ≡ update_in n (fields (part memory.now a e)) }
    ensures load { result.load ≡ load_in n (fields (part memory.now a e)) }
{
    let h = head_at(memory, a, e);
    let q = skip(memory, h.next, e, n);
    let t = times_at(memory, q, e);
    Said {
        date: h.date,
        update: t.update,
        load: t.load,
    }
}

impl BlockWalk {
    // Before the first record, behind a 200 of n intervals whose values have at most so many decimals.
    fn new(start: usize, n: usize, decimals: usize) -> BlockWalk
        ensures { result ≡ first_walk start n decimals }
    {
        BlockWalk {
            at: start,
            records: 0,
            state: State::closed(2, 12, n, decimals, 0, 0, 0),
        }
    }

    // Over the record at which the walk stands, as it was looked at: the walk behind it, or the refusal that ends it.
    fn over(self, memory: &[u8], start: usize, found: Found) -> Result<BlockWalk, Refusal>
        requires { Walking memory.now start self × Stands memory.now self.at found }
        ensures { Turned memory.now start self result }
    {
        let at = self.at;
        let e = found.end;
        let behind = e + 2;
        let passed = self.records + 1;
        let st = self.state;
        let from = at - start;
        if is_foreign(memory, at, found, st) {
            return Err(Refusal {
                number: 4,
                place: from,
                record: self.records,
                field: 0,
            });
        }
        let step = st.step(memory, at, found);
        match step {
            Err(x) => Err(Refusal {
                number: x.number,
                place: from + x.place,
                record: self.records,
                field: x.field,
            }),
            Ok(s) => Ok(BlockWalk {
                at: behind,
                records: passed,
                state: s,
            }),
        }
    }

    // Where no CR LF is left: the memory has to end here, with a day that may end. Then the block has so many records.
    fn end(self, memory: &[u8], start: usize) -> Result<usize, Refusal>
        requires { Walking memory.now start self × (lines (drop self.at memory.now) ≡ rest (drop self.at memory.now)) }
        ensures { Ended memory.now start self result }
    {
        let st = self.state;
        let from = self.at - start;
        if !in_day(st.expect) {
            return Err(refusal_at(2, from, self.records));
        }
        if self.at != memory.len() {
            return Err(refusal_at(2, from, self.records));
        }
        if is_open(st.expect, st.next, st.n, 0) {
            return Err(refusal_at(10, from, self.records));
        }
        Ok(self.records)
    }
}

// A refusal without a field.
fn refusal_at(number: u64, place: usize, record: usize) -> Refusal
    ensures { refused_as result ≡ refused_at number place «record» }
{
    Refusal {
        number,
        place,
        record,
        field: 0,
    }
}

// From the record on at which the walk stands: how many records the block has.
fn walk_from(memory: &[u8], start: usize, first: BlockWalk) -> Result<usize, Refusal>
    requires { Walking memory.now start first }
    ensures { Ended memory.now start first result }
{
    let mut t = first;
    loop {
        let handed = record_at(memory, t.at);
        let Some((_, found)) = handed else {
            return t.end(memory, start);
        };
        t = t.over(memory, start, found)?;
    }
}

// The block from `start` to the memory's end, behind a 200 of n intervals whose values have at most so many decimals, where it has a record, which was looked at.
fn walk_block(
    memory: &[u8],
    start: usize,
    found: Found,
    n: usize,
    decimals: usize,
) -> Result<usize, Refusal>
    requires { Stands memory.now start found × (n ≤ 288) × (decimals ≤ 6) }
    ensures { Entire memory.now start n decimals result }
{
    let t = BlockWalk::new(start, n, decimals);
    let next = t.over(memory, start, found)?;
    walk_from(memory, start, next)
}

// The walk over bytes of which nothing is known.
fn walk_bytes(memory: &[u8], start: usize, minutes: u32, unit: u8) -> Result<Walked, Refusal>
    ensures { WalkedAs memory.now start minutes unit result }
{
    let n = intervals(minutes as u64);
    if n == 0 {
        return Err(refusal_at(16, 0, 0));
    }
    if !units::is_unit(unit) {
        return Err(refusal_at(16, 0, 0));
    }
    let handed = record_at(memory, start);
    let Some((_, found)) = handed else {
        return Err(refusal_at(2, 0, 0));
    };
    let records = walk_block(memory, start, found, n, units::decimals(unit))?;
    Ok(Walked {
        records,
        end: found.end,
    })
}

// Whether the bytes from `start` to the memory's end are a day block behind a 200 of so many minutes and that unit: what it says and how many records it has,
// or its first refusal. An interval length or a unit that is none is 16, before all else.
pub fn check_block(
    memory: &[u8],
    start: usize,
    minutes: u32,
    unit: u8,
) -> Result<BlockChecked, Refusal>
    ensures { block_checked_as result ≡ block_check_of minutes unit (drop start memory.now) }
{
    let block = walk_bytes(memory, start, minutes, unit)?;
    let n = intervals(minutes as u64);
    let s = said_at(memory, start, block.end, n);
    Ok(BlockChecked {
        date: s.date,
        n,
        update: s.update,
        load: s.load,
        records: block.records,
    })
}

// The date that the same check answers, if it accepts the block. The times stand behind all the values, and who needs none of them is spared a second pass.
pub fn block_date(memory: &[u8], start: usize, minutes: u32, unit: u8) -> Option<u64>
    ensures { result ≡ date_said (block_check_of minutes unit (drop start memory.now)) }
{
    let w = walk_bytes(memory, start, minutes, unit);
    match w {
        Err(_) => None,
        Ok(block) => {
            let h = head_at(memory, start, block.end);
            Some(h.date as u64)
        }
    }
}
