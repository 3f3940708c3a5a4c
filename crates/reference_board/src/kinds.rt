// What stands on the board as a number: which call, the phase, the way of a recovery, and the answers that are no acceptance.

#[derive(Clone, Copy, PartialEq, Eq)]
pub enum Call {
    Format = 0,
    Write = 1,
    Drop = 2,
    Read = 3,
    Park = 4,
    Recover = 5,
    Batch = 6,
}

// Only numbers of calls are put on the board.
impl From<u32> for Call {
    fn from(number: u32) -> Call {
        match number {
            0 => Call::Format,
            1 => Call::Write,
            2 => Call::Drop,
            3 => Call::Read,
            4 => Call::Park,
            5 => Call::Recover,
            _ => Call::Batch,
        }
    }
}

#[derive(Clone, Copy, PartialEq, Eq)]
pub enum Phase {
    Running = 0,
    Parked = 1,
    Cut = 2,
}

impl From<u32> for Phase {
    fn from(number: u32) -> Phase {
        match number {
            0 => Phase::Running,
            1 => Phase::Parked,
            _ => Phase::Cut,
        }
    }
}

// How a recovery found its log.
#[derive(Clone, Copy, PartialEq, Eq)]
pub enum Way {
    Walk = 1,
    Scan = 2,
}

// Why a call is not accepted. An accepted one answers 0.
#[derive(Clone, Copy, PartialEq, Eq)]
pub enum Refusal {
    Size = 1,
    BufferLength = 2,
    Arguments = 3,
    WrongPhase = 4,
    NotConsistent = 5,
    NoRoom = 6,
    NumbersUsedUp = 7,
    NoLog = 8,
    DamagedLog = 9,
    PowerCut = 10,
    WrongSettings = 11,
    CommitCount = 12,
}
