// A 400 read in one go: each field is held to its rule and says what later rules ask of it, so that none is read twice.
#![tactic(auto)]

ghost use Rattle.std.specs.Prelude.{◌≡◌};
ghost use Rattle.format.specs.Cut.{fields};
ghost use Rattle.ground.specs.Lists.{part};
ghost use Rattle.format.specs.Records.{no_scale, first_in};
ghost use Rattle.record.specs.Walk.{Typed, Along};
ghost use Rattle.runs.specs.Ran.{Spans, Grades, Runs};

use format::Tag;
use lines::pieces::field_end;
use record::BadField;
use says::start_of;

// A 400 whose fields all meet their rules: its intervals, where its quality stands, and its mark.
#[derive(Clone, Copy)]
pub struct Run {
    pub from: usize,
    pub to: usize,
    pub quality: usize,
    pub mark: Tag,
}

// From its reason on, behind b. Its commas are counted, so its last field ends where it does.
fn reasoned(
    file: &[u8],
    at: usize,
    e: usize,
    b: usize,
    from: usize,
    to: usize,
    q: usize,
    flag: u8,
    method: u8,
) -> Result<Run, BadField>
    requires { Typed file.now at e 400 no_scale × Along file.now at e 400 no_scale 4 b × Spans file.now at e from to × Grades file.now at e q flag method }
    ensures { Runs file.now at e result }
{
    let x = b + 1;
    let c = x + field_end(&file[x..e]);
    let r = number_rules::reason(&file[x..c]);
    let Some(reason) = r else {
        return Err(BadField {
            place: x - at,
            field: 5,
        });
    };
    let y = c + 1;
    if !text_rules::description(&file[y..e]) {
        return Err(BadField {
            place: y - at,
            field: 6,
        });
    }
    let n = e - y;
    Ok(Run {
        from,
        to,
        quality: q,
        mark: Tag {
            flag,
            method,
            reason: reason as u16,
            start: start_of(y, n),
            length: n,
        },
    })
}

// From its quality on, behind b.
fn graded(
    file: &[u8],
    at: usize,
    e: usize,
    b: usize,
    from: usize,
    to: usize,
) -> Result<Run, BadField>
    requires { Typed file.now at e 400 no_scale × Along file.now at e 400 no_scale 3 b × Spans file.now at e from to }
    ensures { Runs file.now at e result }
{
    let q = b + 1;
    let c = q + field_end(&file[q..e]);
    let g = quality_rules::quality(&file[q..c], 400);
    let Some(grade) = g else {
        return Err(BadField {
            place: q - at,
            field: 4,
        });
    };
    reasoned(file, at, e, c, from, to, q, grade.flag, grade.method)
}

// From its last interval on, behind b.
fn ended(file: &[u8], at: usize, e: usize, b: usize, from: usize) -> Result<Run, BadField>
    requires { Typed file.now at e 400 no_scale × Along file.now at e 400 no_scale 2 b × (from ≡ first_in (fields (part file.now at e))) }
    ensures { Runs file.now at e result }
{
    let p = b + 1;
    let c = p + field_end(&file[p..e]);
    let x = number_rules::interval(&file[p..c]);
    let Some(to) = x else {
        return Err(BadField {
            place: p - at,
            field: 3,
        });
    };
    graded(file, at, e, c, from, to as usize)
}

// The 400 from at to e, of which the number of fields is known: an indicator has three bytes, so the reading starts behind it.
pub fn run_at(file: &[u8], at: usize, e: usize) -> Result<Run, BadField>
    requires { Typed file.now at e 400 no_scale }
    ensures { Runs file.now at e result }
{
    let b = at + 3;
    let a = b + 1;
    let c = a + field_end(&file[a..e]);
    let x = number_rules::interval(&file[a..c]);
    let Some(from) = x else {
        return Err(BadField {
            place: a - at,
            field: 2,
        });
    };
    ended(file, at, e, c, from as usize)
}
