// The state of a volume. It goes into every call by value, and every call hands it back.
#![tactic(auto)]

ghost use Rattle.std.specs.Prelude.{◌≡◌};
ghost use Rattle.state.specs.State.{parked_state, cut_state, committed_state, fresh_state, lost_state};

pub mod tail;

use answer::{Answer, Cost, Refusal};
use geometry::{Drive, Geometry};

#[derive(Clone, Copy, Debug, PartialEq, Eq)]
pub enum Phase {
    Running,
    Parked,
    // A power failure came in a call: only a recovery goes on from here.
    Cut,
}

#[derive(Clone, Copy)]
pub struct State {
    pub geometry: Geometry,
    // The sector of the newest closed commit's closing map sector, and its number.
    pub tail: u32,
    pub number: u32,
    pub phase: Phase,
    pub drive: Drive,
}

impl State {
    // Running, as an accepted format or recovery leaves it.
    pub fn running(g: Geometry, drive: Drive, tail: u32, number: u32) -> State
        ensures { result ≡ fresh_state g drive tail number }
    {
        State {
            geometry: g,
            tail,
            number,
            phase: Phase::Running,
            drive,
        }
    }

    // Nothing but volume and drive is known: a format or a recovery did not come to its end.
    pub fn lost(g: Geometry, drive: Drive) -> State
        ensures { result ≡ lost_state g drive }
    {
        State {
            geometry: g,
            tail: 0,
            number: 0,
            phase: Phase::Cut,
            drive,
        }
    }

    pub fn parked(self) -> State
        ensures { result ≡ parked_state self }
    {
        let geometry = self.geometry;
        let drive = self.drive;
        State {
            geometry,
            tail: self.tail,
            number: self.number,
            phase: Phase::Parked,
            drive,
        }
    }

    pub fn cut(self) -> State
        ensures { result ≡ cut_state self }
    {
        let geometry = self.geometry;
        let drive = self.drive;
        State {
            geometry,
            tail: self.tail,
            number: self.number,
            phase: Phase::Cut,
            drive,
        }
    }

    // With the tail and the number of a new commit.
    pub fn committed(self, tail: u32, number: u32) -> State
        ensures { result ≡ committed_state self tail number }
    {
        let geometry = self.geometry;
        let drive = self.drive;
        State {
            geometry,
            tail,
            number,
            phase: Phase::Running,
            drive,
        }
    }
}

// What a call hands back.
#[derive(Clone, Copy)]
pub struct Outcome {
    pub answer: Answer,
    pub state: State,
}

// What a batch of commits hands back: the verdict on the call as a whole, how many commits were answered, what they cost together,
// and the state after the last of them.
#[derive(Clone, Copy)]
pub struct BatchOutcome {
    pub verdict: Result<(), Refusal>,
    pub answered: u32,
    pub cost: Cost,
    pub state: State,
}
