// The names of fields, by the kind of their record and their number from 1.
ghost use Rattle.page.specs.Filled.{Filled};
ghost use Rattle.words.specs.Lists.{numbered};
ghost use Rattle.words.specs.Names.{value_name, name_in300, name_of};

use super::lists::text_at;
use page::texts::{number as put_number, put};

// The name of a field of a list.
fn named(page: &mut [u8], at: usize, names: &[u8], number: usize) -> usize
    ensures { Filled page.old at (numbered number names.now) result page.new }
{
    put(page, at, text_at(names, number))
}

fn value_name(page: &mut [u8], at: usize, interval: usize) -> usize
    ensures { Filled page.old at (value_name interval) result page.new }
{
    let p = put(page, at, b"value of interval ");
    put_number(page, p, interval as u64)
}

// A 300 has two fields before its values, and five behind them; so many stand behind this one.
fn name_in_300(page: &mut [u8], at: usize, number: usize, behind: usize) -> usize
    ensures { Filled page.old at (name_in300 number behind) result page.new }
{
    if number < 3 {
        named(page, at, b"indicator;date", number)
    } else if 4 < behind {
        value_name(page, at, number - 2)
    } else {
        named(
            page,
            at,
            b"quality;reason;description;update time;load time",
            5 - behind,
        )
    }
}

// The name of a field of a record that has so many.
pub fn name(page: &mut [u8], at: usize, kind: u64, number: usize, count: usize) -> usize
    ensures { Filled page.old at (name_of kind number count) result page.new }
{
    match kind {
        100 => named(page, at, b"indicator;version;date and time;from;to", number),
        200 => {
            named(
                page,
                at,
                b"indicator;NMI;configuration;register;suffix;data stream;serial;unit;interval length;next read date",
                number,
            )
        }
        250 => {
            named(
                page,
                at,
                b"indicator;NMI;configuration;register;suffix;data stream;serial;direction;\
                previous read;previous read time;previous quality;previous reason;previous description;\
                current read;current read time;current quality;current reason;current description;\
                quantity;unit;next read date;update time;load time",
                number,
            )
        }
        300 => name_in_300(page, at, number, count.saturating_sub(number)),
        400 => named(
            page,
            at,
            b"indicator;start interval;end interval;quality;reason;description",
            number,
        ),
        500 => named(
            page,
            at,
            b"indicator;trans code;service order;read time;index read",
            number,
        ),
        550 => {
            named(
                page,
                at,
                b"indicator;previous trans code;previous service order;current trans code;current service order",
                number,
            )
        }
        _ => named(page, at, b"indicator", number),
    }
}
