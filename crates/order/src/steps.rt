// The step over one record: 3, 10, 4, 5 and 6 in document 01's order, then the record's own method.
ghost use Rattle.std.specs.Prelude.{◌≡◌, ◌≤◌};
ghost use Rattle.ground.specs.Lists.{part};
ghost use Rattle.format.specs.Records.{no_scale};
ghost use Rattle.format.specs.Faults.{scale_of};
ghost use Rattle.lines.specs.Places.{Looked};
ghost use Rattle.record.specs.Walk.{Typed};
ghost use Rattle.order.specs.State.{seen, closed, Kept, cells, Ready, next_of, further_of, last_of, step_as, Holds};

use super::{State, Stop};
use follows::{is_open, may_come};
use lines::Found;
use record::check_fields;
use rows::count_of;
use runs::run_at;
use says::kind_at;

impl State {
    // Before the first record.
    pub fn new() -> State
        ensures { result ≡ closed 0 0 0 0 0 0 0 }
    {
        State::closed(0, 0, 0, 0, 0, 0, 0)
    }

    // A 400 is read in one go, and hands its method what it says.
    fn run(self, file: &[u8], at: usize, e: usize) -> Result<State, Stop>
        requires { Kept file.now at self × Typed file.now at e 400 no_scale × (1 ≤ self.next) }
        ensures { (step_as file.now result ≡ further_of (seen file.now self) 400 (cells file.now at e)) × Holds file.now at e result }
    {
        let r = run_at(file, at, e)?;
        self.on_400(file, at, e, r.from, r.to, r.quality, r.mark)
    }

    // The own method of any other record; p and q are the places that it asks for.
    fn on(
        self,
        file: &[u8],
        at: usize,
        e: usize,
        kind: u64,
        p: usize,
        q: usize,
    ) -> Result<State, Stop>
        requires { Ready file.now at e kind p q self × (kind ≡ 400 → ⊥) }
        ensures { (step_as file.now result ≡ last_of (seen file.now self) kind (cells file.now at e)) × Holds file.now at e result }
    {
        match kind {
            100 => Ok(self.on_100(file, at, e)),
            200 => Ok(self.on_200(file, at, e, p, q)),
            300 => self.on_300(file, at, e, p),
            500 => self.on_500(file, at, e, p),
            250 => self.on_250(file, at, e, p, q),
            550 => Ok(self.on_550()),
            _ => Ok(self.on_900()),
        }
    }

    // From 6 on: its fields, each held to its rule, and its own method.
    fn further(self, file: &[u8], at: usize, e: usize, kind: u64) -> Result<State, Stop>
        requires { Kept file.now at self × Typed file.now at e kind (scale_of (seen file.now self) kind (cells file.now at e)) × (kind ≡ 400 → 1 ≤ self.next) }
        ensures { (step_as file.now result ≡ further_of (seen file.now self) kind (cells file.now at e)) × Holds file.now at e result }
    {
        if kind == 400 {
            return self.run(file, at, e);
        }
        let w = check_fields(file, at, e, kind, self.n, self.decimals)?;
        self.on(file, at, e, kind, w.first, w.second)
    }

    // The record that starts at a place and ends in a CR LF.
    pub fn step(self, file: &[u8], at: usize, found: Found) -> Result<State, Stop>
        requires { Kept file.now at self × Looked file.now at found.end found.bad found.commas }
        ensures { (step_as file.now result ≡ next_of (seen file.now self) (part file.now at found.end)) × Holds file.now at found.end result }
    {
        let e = found.end;
        if found.bad < e {
            return Err(Stop {
                number: 3,
                place: found.bad - at,
                field: 0,
            });
        }
        let kind = kind_at(file, at, e);
        if is_open(self.expect, self.next, self.n, kind) {
            return Err(Stop {
                number: 10,
                place: 0,
                field: 0,
            });
        }
        if !may_come(self.expect, kind) {
            return Err(Stop {
                number: 4,
                place: 0,
                field: 0,
            });
        }
        if found.commas + 1 != count_of(kind, self.n) {
            return Err(Stop {
                number: 5,
                place: 0,
                field: 0,
            });
        }
        self.further(file, at, e, kind)
    }
}
