// The lines of a tenant map's tables: a version's outputs and channels, and all versions.
ghost use Rattle.page.specs.Filled.{Filled};
ghost use Rattle.phrase.specs.Phrases.{date_text, cell_text};
ghost use Rattle.map_lines.specs.Tables.{output_text, channel_text, version_columns, like_text, row_text};

use super::version;
use page::texts::put;
use phrase::columns::{cell, right};
use phrase::times::date;

// ---- outputs

// Where the columns start, or, of numbers, end.
const OUTPUT: usize = 6;

const NMI: usize = 8;

const SUFFIX: usize = 20;

const SHARE: usize = 33;

// An output in use by its number from 0.
pub fn output_row(
    page: &mut [u8],
    at: usize,
    output: u32,
    nmi: &[u8],
    suffix: &[u8],
    share: u64,
) -> usize
    ensures { Filled page.old at (output_text output nmi.now suffix.now share at) result page.new }
{
    let p = right(page, at, OUTPUT, output as u64);
    let q = cell(page, p, NMI, nmi);
    let r = cell(page, q, SUFFIX, suffix);
    right(page, r, SHARE, share)
}

// ---- channels

const CHANNEL_NMI: usize = 0;

const CHANNEL_SUFFIX: usize = 12;

const CHANNEL_OUTPUTS: usize = 27;

const CHANNEL_SHARES: usize = 35;

// A channel, how many outputs are on it, and what their shares add up to.
pub fn channel_row(
    page: &mut [u8],
    at: usize,
    nmi: &[u8],
    suffix: &[u8],
    outputs: u64,
    shares: u64,
) -> usize
    ensures { Filled page.old at (channel_text nmi.now suffix.now outputs shares at) result page.new }
{
    let p = cell(page, at, CHANNEL_NMI, nmi);
    let q = cell(page, p, CHANNEL_SUFFIX, suffix);
    let r = right(page, q, CHANNEL_OUTPUTS, outputs);
    right(page, r, CHANNEL_SHARES, shares)
}

// ---- versions

const VERSION: usize = 7;

const FROM: usize = 9;

const VERSION_OUTPUTS: usize = 28;

const VERSION_CHANNELS: usize = 38;

fn dated(page: &mut [u8], at: usize, first: u64) -> usize
    ensures { Filled page.old at (cell_text 9 (date_text first) at) result page.new }
{
    let p = cell(page, at, FROM, b"");
    date(page, p, first)
}

fn placed(page: &mut [u8], at: usize, v: u32, first: u64, outputs: u64, channels: u64) -> usize
    ensures { Filled page.old at (version_columns v first outputs channels at) result page.new }
{
    let p = right(page, at, VERSION, v as u64);
    let q = dated(page, p, first);
    let r = right(page, q, VERSION_OUTPUTS, outputs);
    right(page, r, VERSION_CHANNELS, channels)
}

fn like_other(page: &mut [u8], at: usize, like: u32) -> usize
    ensures { Filled page.old at (like_text like) result page.new }
{
    if like == 0 {
        return put(page, at, b"");
    }
    let p = put(page, at, b"  as ");
    version(page, p, like as u64)
}

// A version by its number from 1, and that of an earlier one with the same entries, 0 where there is none.
pub fn version_row(
    page: &mut [u8],
    at: usize,
    v: u32,
    first: u64,
    outputs: u64,
    channels: u64,
    like: u32,
) -> usize
    ensures { Filled page.old at (row_text v first outputs channels like at) result page.new }
{
    let p = placed(page, at, v, first, outputs, channels);
    like_other(page, p, like)
}
