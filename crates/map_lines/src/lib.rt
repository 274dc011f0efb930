// What is said of the calls of a tenant map, and its tables, put on a page. Each function answers the place behind what it put.
#![tactic(auto)]

pub mod tables;

ghost use Rattle.page.specs.Filled.{Filled};
ghost use Rattle.map_lines.specs.Lines.{version_text, counts_text, added_text, until_text, span_text, out_of_text, wrong_text, fault_text};

use page::texts::{number, put};
use phrase::counts::counted;
use phrase::times::date;
use words::lists::text_at;

fn version(page: &mut [u8], at: usize, v: u64) -> usize
    ensures { Filled page.old at (version_text v) result page.new }
{
    let p = put(page, at, b"version ");
    number(page, p, v)
}

// ---- a version that was added

fn counts(page: &mut [u8], at: usize, used: u64, channels: u64) -> usize
    ensures { Filled page.old at (counts_text used channels) result page.new }
{
    let p = put(page, at, b": ");
    let q = counted(page, p, used, b"output");
    let r = put(page, q, b" in use, ");
    counted(page, r, channels, b"channel")
}

// The version's number and first date, and how many outputs and channels it names.
pub fn added(page: &mut [u8], at: usize, v: u32, first: u64, used: u64, channels: u64) -> usize
    ensures { Filled page.old at (added_text v first used channels) result page.new }
{
    let p = version(page, at, v as u64);
    let q = put(page, p, b" added, from ");
    let r = date(page, q, first);
    counts(page, r, used, channels)
}

// ---- from when to when a version holds

fn until(page: &mut [u8], at: usize, next: u64) -> usize
    ensures { Filled page.old at (until_text next) result page.new }
{
    if next == 0 {
        return put(page, at, b" on");
    }
    let p = put(page, at, b" up to the day before ");
    date(page, p, next)
}

// The version, its first date, and the first date of the one behind it, 0 where there is none.
pub fn span(page: &mut [u8], at: usize, v: u32, first: u64, next: u64) -> usize
    ensures { Filled page.old at (span_text v first next) result page.new }
{
    let p = version(page, at, v as u64);
    let q = put(page, p, b", from ");
    let r = date(page, q, first);
    until(page, r, next)
}

// ---- how many of how many

pub fn out_of(page: &mut [u8], at: usize, n: u64, all: &[u8]) -> usize
    ensures { Filled page.old at (out_of_text n all.now) result page.new }
{
    let p = number(page, at, n);
    let q = put(page, p, b" of ");
    put(page, q, all)
}

// ---- what is wrong with a line of a table

// By the fault's number, as `map_table` counts them.
fn wrong(page: &mut [u8], at: usize, fault: u8) -> usize
    ensures { Filled page.old at (wrong_text fault) result page.new }
{
    let faults = b"not four fields, which are output,NMI,suffix,share;\
        no output, which is a number from 0 to 127;\
        no NMI, which is 10 letters or digits;\
        no suffix, which is 2 letters or digits;\
        no share, which is a whole number from 0 to 1000;\
        an output that has a line already;\
        a share without NMI and suffix";
    put(page, at, text_at(faults, fault as usize + 1))
}

// With the line's number from 1.
pub fn at_fault(page: &mut [u8], at: usize, line: u64, fault: u8) -> usize
    ensures { Filled page.old at (fault_text line fault) result page.new }
{
    let p = put(page, at, b"refused: line ");
    let q = number(page, p, line);
    let r = put(page, q, b" of the table: ");
    wrong(page, r, fault)
}
