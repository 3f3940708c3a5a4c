// The desk: it takes a line apart, lends the volume's parts to the call, and keeps the state.
ghost use Rattle.std.specs.Prelude.{◌≡◌};
ghost use Rattle.lending.specs.Lending.{lengths_held, SameLent};
ghost use Rattle.line_reader.specs.Reader.{Placed};

use crate::given::Given;
use crate::{calls, given};
use answer::{Answer, Refusal};
use geometry::{Drive, Geometry};
use lending::Memory;
use line_reader::{LINE, LineError, Reader, WINDOW};
use paper::request;
use paper::request::{Call, Request};
use paper::trouble::{Fault, Trouble};
use state::State;
use std::io::Print;
use wording::say;

#[derive(Clone, Copy)]
pub struct Desk {
    pub state: State,
    // The drive that the volume was formatted for: what a recover is not given is taken from it.
    pub drive: Drive,
    // Whether there is a volume. No Option of the state: a format takes one where there is no volume yet.
    pub open: bool,
    // Whether the paper is at its end, or a line was not understood.
    pub stopped: bool,
    // The line's number, from 1.
    pub line: u32,
    // Where the commits of a backlog come next: the stores that they may make.
    pub backlog: Option<u32>,
}

// The bytes of the sectors that the program holds, the largest map and its pieces, and the used map of so many sectors.
pub const IMAGE: usize = calls::HELD as usize * Geometry::SECTOR;

pub const MAP: usize = Geometry::MOST_BLOCKS as usize;

pub const PIECES: usize = Geometry::MOST_PIECES;

pub const USED: usize = calls::USED;

// The bytes of the most blocks of a line.
pub const LINE_BYTES: usize = request::MOST * Geometry::SECTOR;

// The number after a line's.
pub fn counted(line: u32) -> u32 {
    line.saturating_add(1)
}

impl Desk {
    pub fn opened() -> Desk {
        let drive = given::one_track(0);
        Desk {
            state: State::lost(Geometry { n: 0, l: 0 }, drive),
            drive,
            open: false,
            stopped: false,
            line: 0,
            backlog: None,
        }
    }

    // The desk at the next line.
    fn moved(self) -> Desk {
        Desk {
            line: counted(self.line),
            ..self
        }
    }

    pub fn stop(self) -> Desk {
        Desk {
            stopped: true,
            backlog: None,
            ..self
        }
    }

    // After a format, which makes a volume for a drive, or none.
    fn formatted(self, state: State, drive: Drive, open: bool) -> Desk {
        Desk {
            state,
            drive,
            open,
            backlog: None,
            ..self
        }
    }

    // After any other call.
    fn with(self, state: State) -> Desk {
        Desk {
            state,
            backlog: None,
            ..self
        }
    }

    // Before the commits of a backlog.
    fn before_backlog(self, stores: u32) -> Desk {
        Desk {
            backlog: Some(stores),
            ..self
        }
    }

    // After a backlog, whose last line has this number.
    pub fn after_backlog(self, state: State, line: u32) -> Desk {
        Desk {
            state,
            line,
            backlog: None,
            ..self
        }
    }
}

// What a line asks for.
fn asked(desk: Desk, call: Call, r: Request) -> Given {
    match call {
        Call::Format => given::of_format(r),
        _ => given::of_volume(r, desk.state.geometry, desk.drive),
    }
}

// What stops a call whose line is understood: no volume, or one that would be accepted and is larger than the program holds.
fn obstacle(desk: Desk, call: Call, given: Given) -> Result<(), Trouble> {
    let size = given.size;
    match call {
        Call::Format => {
            if given::is_too_large(size) && given.drive.fits(size.n) {
                return Err(Trouble::Sectors);
            }
            Ok(())
        }
        _ => {
            if desk.open {
                return Ok(());
            }
            Err(Trouble::Volume)
        }
    }
}

// A request and what it is handed; none where its line is turned back, with the words for it.
fn understood(
    rt: &impl Print,
    desk: Desk,
    call: Call,
    line: &[u8],
    found: Result<Request, Fault>,
) -> Option<(Request, Given)> {
    let r = match found {
        Ok(r) => r,
        Err(fault) => {
            say::say_trouble(rt, desk.line, line, call, fault);
            return None;
        }
    };
    let given = asked(desk, call, r);
    match obstacle(desk, call, given) {
        Ok(()) => Some((r, given)),
        Err(trouble) => {
            say::say_obstacle(rt, desk.line, line, trouble);
            None
        }
    }
}

// Whether there is a volume after a format: none was made where its size or its settings are refused.
fn has_volume(answer: Answer) -> bool {
    !matches!(
        answer,
        Answer::Refused(Refusal::Size | Refusal::WrongSettings)
    )
}

// The volume's parts for a call, and the call.
fn answer_request(
    rt: &impl Print,
    desk: Desk,
    call: Call,
    r: Request,
    given: Given,
    m: &mut Memory<'_>,
    blocks: &[u32],
    bytes: &[u8],
) -> Desk
    ensures lent { SameLent m.new m.old }
    ensures lengths { lengths_held m.new ≡ lengths_held m.old }
{
    let drive = given.drive;
    let left = calls::lend(rt, call, r, desk.state, given.size, drive, m, blocks, bytes);
    match call {
        Call::Format => desk.formatted(left.state, drive, has_volume(left.answer)),
        _ => desk.with(left.state),
    }
}

// Reads the line into the arrays for its blocks and their bytes, and makes the call. They come from the caller: of an array that is made
// where it is lent the check would count the elements.
fn answer_read(
    rt: &impl Print,
    desk: Desk,
    call: Call,
    line: &[u8],
    m: &mut Memory<'_>,
    blocks: &mut [u32; request::MOST],
    bytes: &mut [u8; LINE_BYTES],
) -> Desk
    ensures lent { SameLent m.new m.old }
    ensures lengths { lengths_held m.new ≡ lengths_held m.old }
{
    let found = request::request_of(line, call, blocks, bytes);
    let Some((r, given)) = understood(rt, desk, call, line, found) else {
        return desk.stop();
    };
    answer_request(rt, desk, call, r, given::handed(given), m, blocks, bytes)
}

// A line that asks for a call.
fn answer_call(rt: &impl Print, desk: Desk, call: Call, line: &[u8], m: &mut Memory<'_>) -> Desk
    ensures lent { SameLent m.new m.old }
    ensures lengths { lengths_held m.new ≡ lengths_held m.old }
{
    let mut blocks = [0u32; request::MOST];
    let mut bytes = [0u8; LINE_BYTES];
    answer_read(rt, desk, call, line, m, &mut blocks, &mut bytes)
}

// The line that a backlog begins with.
fn begin_backlog(rt: &impl Print, desk: Desk, line: &[u8]) -> Desk {
    let found = request::request_without_blocks(line, Call::Backlog);
    match understood(rt, desk, Call::Backlog, line, found) {
        Some((r, _)) => desk.before_backlog(r.stores()),
        None => desk.stop(),
    }
}

// A line of the paper.
fn answer_line(rt: &impl Print, desk: Desk, line: &[u8], m: &mut Memory<'_>) -> Desk
    ensures lent { SameLent m.new m.old }
    ensures lengths { lengths_held m.new ≡ lengths_held m.old }
{
    match request::call_of(line) {
        None => desk,
        Some(Call::Backlog) => begin_backlog(rt, desk, line),
        Some(call) => answer_call(rt, desk, call, line, m),
    }
}

// Why the line of this number cannot be given.
pub fn say_line_error(rt: &impl Print, number: u32, error: LineError) {
    match error {
        LineError::Long => say::say_long_line(rt, number, LINE as u64),
        LineError::Unreadable => say::say_unreadable(rt, number),
    }
}

// What the reader found: the next line, or why there is none.
pub fn answer_next(
    rt: &impl Print,
    desk: Desk,
    window: &[u8; WINDOW],
    reader: Reader,
    m: &mut Memory<'_>,
) -> Desk
    requires { Placed reader }
    ensures lent { SameLent m.new m.old }
    ensures lengths { lengths_held m.new ≡ lengths_held m.old }
{
    let here = desk.moved();
    match reader.standing(window) {
        Ok(Some(line)) => answer_line(rt, here, line, m),
        Ok(None) => desk.stop(),
        Err(error) => {
            say_line_error(rt, here.line, error);
            here.stop()
        }
    }
}
