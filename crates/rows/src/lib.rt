// The rule of each field by its number from 0, and a field held to its rule.
#![tactic(auto)]

ghost use Rattle.std.specs.Prelude.{◌≡◌, ◌≤◌, get_or};
ghost use Rattle.format.specs.Records.{scale, row100, row200, row300, row400, row500, row250, row550, count_of, rule_of, obeys};
ghost use Rattle.format.specs.declared.Rule.TheVariants.{Indicator};

use format::Rule;
use quick_values::{is_read, is_value};
use value_rules::up_to_six;

fn rule_100(i: usize) -> Rule
    ensures { result ≡ get_or row100 i Indicator }
{
    match i {
        1 => Rule::Version,
        2 => Rule::Created,
        3 => Rule::Party,
        4 => Rule::Party,
        _ => Rule::Indicator,
    }
}

fn rule_200(i: usize) -> Rule
    ensures { result ≡ get_or row200 i Indicator }
{
    match i {
        1 => Rule::Nmi,
        2 => Rule::Configuration,
        3 => Rule::Register,
        4 => Rule::Suffix,
        5 => Rule::Stream,
        6 => Rule::Serial,
        7 => Rule::Unit,
        8 => Rule::Length,
        9 => Rule::NextRead,
        _ => Rule::Indicator,
    }
}

fn rule_300(n: usize, d: usize, i: usize) -> Rule
    requires { n ≤ 288 }
    ensures { result ≡ get_or (row300 (scale n d)) i Indicator }
{
    if i < 1 {
        return Rule::Indicator;
    }
    if i < 2 {
        return Rule::Date;
    }
    if i < n + 2 {
        return Rule::Value(d);
    }
    match i - n {
        2 => Rule::Quality,
        3 => Rule::Reason,
        4 => Rule::Description,
        5 => Rule::Time,
        6 => Rule::Load,
        _ => Rule::Indicator,
    }
}

fn rule_400(i: usize) -> Rule
    ensures { result ≡ get_or row400 i Indicator }
{
    match i {
        1 => Rule::Interval,
        2 => Rule::Interval,
        3 => Rule::Quality,
        4 => Rule::Reason,
        5 => Rule::Description,
        _ => Rule::Indicator,
    }
}

fn rule_500(i: usize) -> Rule
    ensures { result ≡ get_or row500 i Indicator }
{
    match i {
        1 => Rule::TransCode,
        2 => Rule::ServiceOrder,
        3 => Rule::ReadTime,
        4 => Rule::IndexRead,
        _ => Rule::Indicator,
    }
}

// One table, which a 250's many fields are looked up in at one step.
fn rule_250(d: usize, i: usize) -> Rule
    ensures { result ≡ get_or (row250 d) i Indicator }
{
    match i {
        1 => Rule::Nmi,
        2 => Rule::Configuration,
        3 => Rule::Register,
        4 => Rule::Suffix,
        5 => Rule::Stream,
        6 => Rule::Serial,
        7 => Rule::Direction,
        8 => Rule::RegisterRead,
        9 => Rule::Time,
        10 => Rule::Quality,
        11 => Rule::Reason,
        12 => Rule::Description,
        13 => Rule::RegisterRead,
        14 => Rule::Time,
        15 => Rule::Quality,
        16 => Rule::Reason,
        17 => Rule::Description,
        18 => Rule::Value(d),
        19 => Rule::Unit,
        20 => Rule::NextRead,
        21 => Rule::Time,
        22 => Rule::Load,
        _ => Rule::Indicator,
    }
}

fn rule_550(i: usize) -> Rule
    ensures { result ≡ get_or row550 i Indicator }
{
    match i {
        1 => Rule::TransCode,
        2 => Rule::ServiceOrder,
        3 => Rule::TransCode,
        4 => Rule::ServiceOrder,
        _ => Rule::Indicator,
    }
}

// The rule of the field of a number from 0, in a record of the kind; n is that of a 300, d the decimals that a value may have.
pub fn rule_at(kind: u64, n: usize, d: usize, i: usize) -> Rule
    requires { n ≤ 288 }
    ensures { result ≡ rule_of kind (scale n d) i }
{
    match kind {
        100 => rule_100(i),
        200 => rule_200(i),
        300 => rule_300(n, d, i),
        400 => rule_400(i),
        500 => rule_500(i),
        250 => rule_250(d, i),
        550 => rule_550(i),
        _ => Rule::Indicator,
    }
}

// How many fields a record of the kind has: decimals make no field more or less, so none are asked for.
pub fn count_of(kind: u64, n: usize) -> usize
    requires { n ≤ 288 }
    ensures { result ≡ count_of kind (scale n 0) }
{
    match kind {
        100 => 5,
        200 => 10,
        300 => n + 7,
        400 => 6,
        500 => 5,
        250 => 23,
        550 => 5,
        _ => 1,
    }
}

// The field meets its rule, in a record of the kind.
pub fn obeys(kind: u64, rule: Rule, f: &[u8]) -> bool
    ensures { result ≡ obeys kind rule f.now }
{
    match rule {
        Rule::Indicator => true,
        Rule::Version => text_rules::version(f).is_some(),
        Rule::Created => date_rules::created(f).is_some(),
        Rule::Party => text_rules::party(f),
        Rule::Nmi => text_rules::nmi(f),
        Rule::Configuration => text_rules::configuration(f),
        Rule::Register => text_rules::register(f),
        Rule::Suffix => text_rules::suffix(f),
        Rule::Stream => text_rules::data_stream(f),
        Rule::Serial => text_rules::serial(f),
        Rule::Unit => units::number(f).is_some(),
        Rule::Length => number_rules::interval_length(f).is_some(),
        Rule::NextRead => date_rules::next_read_date(f).is_some(),
        Rule::Date => date_rules::date(f).is_some(),
        Rule::Value(d) => is_value(f, up_to_six(d)),
        Rule::Quality => quality_rules::quality(f, kind).is_some(),
        Rule::Reason => number_rules::reason(f).is_some(),
        Rule::Description => text_rules::description(f),
        Rule::Time => date_rules::time(f).is_some(),
        Rule::Load => date_rules::load_time(f).is_some(),
        Rule::Interval => number_rules::interval(f).is_some(),
        Rule::TransCode => text_rules::trans_code(f),
        Rule::ServiceOrder => text_rules::service_order(f),
        Rule::ReadTime => date_rules::read_time(f).is_some(),
        Rule::IndexRead => value_rules::index_read(f),
        Rule::Direction => text_rules::direction(f),
        Rule::RegisterRead => is_read(f),
    }
}
