// The meaning of request 4, a month in one call, in `specs`, and the answer of the call.
#![tactic(auto)]

// How many days were read, and how many intervals they have together.
#[derive(Clone, Copy)]
pub struct DaysRead {
    pub days: usize,
    pub intervals: usize,
}
