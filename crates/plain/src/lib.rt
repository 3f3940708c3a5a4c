// A state and a result in plain numbers, as they cross to C.
#![tactic(auto)]

ghost use Rattle.std.specs.Prelude.{◌≡◌};
ghost use Rattle.state.specs.State.{phase_number};
ghost use Rattle.plain.specs.Plain.{phase_of, state_of, plain_of, state_left, result_of, settings_in, phase_left, batch_result_of};

use answer::Answer;
use geometry::{Drive, Geometry, Settings};
use state::{BatchOutcome, Outcome, Phase, State};

// A volume's state. The phase is 0 running, 1 parked, 2 cut.
#[repr(C)]
#[derive(Clone, Copy)]
pub struct CState {
    pub n: u32,
    pub l: u32,
    pub tail: u32,
    pub number: u32,
    pub phase: u32,
    pub per_track: u32,
    pub tracks: u32,
    pub head_switch: u32,
}

// What a format or a recovery is given.
#[repr(C)]
#[derive(Clone, Copy)]
pub struct CSettings {
    pub l: u32,
    pub per_track: u32,
    pub tracks: u32,
    pub head_switch: u32,
}

// What a call hands back: its answer (0, or the number of the refusal), the stores it made and the sum of the delays to their
// places, how a recovery found the log (1 walk, 2 scan) and the sectors it read, and the state.
#[repr(C)]
#[derive(Clone, Copy)]
pub struct CResult {
    pub answer: u32,
    pub stores: u32,
    pub skipped: u32,
    pub way: u32,
    pub read: u32,
    pub n: u32,
    pub l: u32,
    pub tail: u32,
    pub number: u32,
    pub phase: u32,
    pub per_track: u32,
    pub tracks: u32,
    pub head_switch: u32,
}

// What a batch hands back: the refusal of the call as a whole, or 0; how many commits were answered and what they cost together;
// and the state after the last of them.
#[repr(C)]
#[derive(Clone, Copy)]
pub struct CBatchResult {
    pub answer: u32,
    pub answered: u32,
    pub stores: u32,
    pub skipped: u32,
    pub n: u32,
    pub l: u32,
    pub tail: u32,
    pub number: u32,
    pub phase: u32,
    pub per_track: u32,
    pub tracks: u32,
    pub head_switch: u32,
}

// A number that is no phase lets no call go on but format and recover, as cut does.
// These two are no `From`: neither type is of this crate.
#[tactic(auto, unfolding(crate::specs::Plain::phase_of))]
fn phase_of(number: u32) -> Phase
    ensures { result ≡ phase_of number }
{
    match number {
        0 => Phase::Running,
        1 => Phase::Parked,
        _ => Phase::Cut,
    }
}

fn phase_number(phase: Phase) -> u32
    ensures { result ≡ phase_number phase }
{
    phase as u32
}

impl From<CState> for State {
    ghost from_gives = { λ c s. s ≡ state_of c };

    fn from(c: CState) -> State {
        State {
            geometry: Geometry { n: c.n, l: c.l },
            tail: c.tail,
            number: c.number,
            phase: phase_of(c.phase),
            drive: Drive {
                sectors: c.per_track,
                tracks: c.tracks,
                switch: c.head_switch,
            },
        }
    }
}

impl From<CSettings> for Settings {
    ghost from_gives = { λ c settings. settings ≡ settings_in c };

    fn from(c: CSettings) -> Settings {
        Settings {
            l: c.l,
            drive: Drive {
                sectors: c.per_track,
                tracks: c.tracks,
                switch: c.head_switch,
            },
        }
    }
}

pub fn state_of(c: CState) -> State
    ensures { result ≡ state_of c }
{
    State::from(c)
}

pub fn settings_of(c: CSettings) -> Settings
    ensures { result ≡ settings_in c }
{
    Settings::from(c)
}

impl From<State> for CState {
    ghost from_gives = { λ s c. c ≡ plain_of s };

    fn from(s: State) -> CState {
        CState {
            n: s.geometry.n,
            l: s.geometry.l,
            tail: s.tail,
            number: s.number,
            phase: phase_number(s.phase),
            per_track: s.drive.sectors,
            tracks: s.drive.tracks,
            head_switch: s.drive.switch,
        }
    }
}

// The state that goes back: after a refusal it is the one that came, a number that is no phase too.
#[tactic(auto, unfolding(crate::specs::Plain::state_left))]
fn state_left(c: CState, answer: Answer, s: State) -> CState
    ensures { result ≡ state_left c answer s }
{
    if answer.is_refusal() {
        return c;
    }
    CState::from(s)
}

pub fn result_of(c: CState, o: Outcome) -> CResult
    ensures { result ≡ result_of c o }
{
    let given = o.answer;
    let answer = given.number();
    let stores = given.stores();
    let skipped = given.skipped();
    let way = given.way();
    let read = given.sectors_read();
    let left = state_left(c, given, o.state);
    CResult {
        answer,
        stores,
        skipped,
        way,
        read,
        n: left.n,
        l: left.l,
        tail: left.tail,
        number: left.number,
        phase: left.phase,
        per_track: left.per_track,
        tracks: left.tracks,
        head_switch: left.head_switch,
    }
}

// The phase after commits: only that of a running volume can have changed, and a number that is no phase goes back as it came.
#[tactic(auto, unfolding(crate::specs::Plain::phase_left))]
fn phase_left(came: u32, phase: Phase) -> u32
    ensures { result ≡ phase_left came phase }
{
    if came == 0 {
        return phase_number(phase);
    }
    came
}

pub fn batch_result_of(c: CState, o: BatchOutcome) -> CBatchResult
    ensures { result ≡ batch_result_of c o }
{
    let verdict = o.verdict;
    let cost = o.cost;
    let s = o.state;
    let g = s.geometry;
    let drive = s.drive;
    let after = s.phase;
    let answer = answer::verdict_number(verdict);
    let phase = phase_left(c.phase, after);
    CBatchResult {
        answer,
        answered: o.answered,
        stores: cost.stores,
        skipped: cost.skipped,
        n: g.n,
        l: g.l,
        tail: s.tail,
        number: s.number,
        phase,
        per_track: drive.sectors,
        tracks: drive.tracks,
        head_switch: drive.switch,
    }
}
