// The axis of values. A value is any number of 64 bits by its type, so the axis ends at what a file may hold: whatever is lent, nothing here grows too large.
ghost use Rattle.std.specs.Prelude.{◌≡◌, ◌≤◌};
ghost use Rattle.measures.specs.Axis.{most_of, reach_of, step_in, step_from, step_for, steps_for, top_for, height_on, height_of};

const ONE: u64 = 1000000;

const LARGEST: u64 = 9999999999999;

// As many powers of ten as it takes for the step to reach the largest.
const TENS: usize = 13;

// The largest of the first n values.
pub fn most_of(values: &[u64], n: usize) -> u64
    ensures { result ≡ most_of values.now n }
{
    let first = &values[..n.min(values.len())];
    let mut most = 0;
    for v in first {
        most = most.max(*v);
    }
    most
}

fn reach_of(most: u64) -> u64
    ensures { result ≡ reach_of most }
{
    if most == 0 { ONE } else { most.min(LARGEST) }
}

fn step_in(ten: u64, reach: u64) -> u64
    requires { ten ≤ 4000000000000 }
    ensures { result ≡ step_in ten reach }
{
    if reach <= ten * 5 {
        ten
    } else if reach <= ten * 10 {
        ten * 2
    } else {
        ten * 5
    }
}

// The step is sought from 1 on, with one power of ten a turn.
fn step_from(reach: u64) -> u64
    requires { reach ≤ 9999999999999 }
    ensures { result ≡ step_from 13 1 reach }
{
    let mut ten = 1;
    for _ in 0..TENS {
        if reach <= ten * 25 {
            return step_in(ten, reach);
        }
        ten *= 10;
    }
    ten
}

pub fn step_for(most: u64) -> u64
    ensures { result ≡ step_for most }
{
    step_from(reach_of(most))
}

pub fn steps_for(most: u64) -> u64
    ensures { result ≡ steps_for most }
{
    let step = step_for(most);
    (reach_of(most) + step - 1) / step
}

fn top_for(most: u64) -> u64
    ensures { result ≡ top_for most }
{
    let steps = steps_for(most);
    let step = step_for(most);
    steps * step
}

fn height_on(top: u64, v: u64) -> u64
    requires { (1 ≤ top) × (top ≤ 100000000000000) }
    ensures { result ≡ height_on top v }
{
    v.min(top) * 30000 / top * 10000
}

// How high a value stands in the picture, in a day with this largest value.
pub fn height(most: u64, v: u64) -> u64
    ensures { result ≡ height_of most v }
{
    height_on(top_for(most), v)
}
