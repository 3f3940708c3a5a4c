// The answers of the calls, and the numbers that document 01 gives them.
#![tactic(auto)]

ghost use Rattle.std.specs.Prelude.{◌≡◌};
ghost use Rattle.answer.specs.declared.Answer.TheVariants.{Accepted, Walked, Scanned, PowerFailed};
ghost use Rattle.answer.specs.Answer.{refusal_number, verdict_number, loss_number, stores_alone, is_refusal, number_of, cost_of, way_of, reads_of};

// Why a call was turned back before it did anything: everything lent, and the state, is left as it came. The numbers are document
// 01's, which C is given.
#[derive(Clone, Copy, Debug, PartialEq, Eq)]
pub enum Refusal {
    // N, L or the image's length is out of range, or not the state's.
    Size = 1,
    // What the drive is made of is out of range, or its tracks do not hold N sectors.
    WrongSettings = 11,
    // A lent buffer has the wrong length.
    BufferLength = 2,
    // A batch has no commit, or more than 32.
    CommitCount = 12,
    // Count, order or range of the block numbers, or the head.
    BlockNumbers = 3,
    // The phase does not allow this call.
    WrongPhase = 4,
    // The tables are not sound, or do not agree with the image.
    Inconsistent = 5,
    // Too few free sectors.
    NoRoom = 6,
    // Too few numbers are left.
    NumbersUsedUp = 7,
}

impl Refusal {
    pub fn number(self) -> u32
        ensures { result ≡ refusal_number self }
    {
        self as u32
    }
}

// Why a recovery has no volume to hand out: the image is left as it came, and the tables are filled with zeros. The numbers are
// document 01's.
#[derive(Clone, Copy, Debug, PartialEq, Eq)]
pub enum Loss {
    // No signed closing sector.
    NoLog = 8,
    // The log that a scan finds is damaged.
    DamagedLog = 9,
}

impl Loss {
    pub fn number(self) -> u32
        ensures { result ≡ loss_number self }
    {
        self as u32
    }
}

// The number of what the checks of a call say: 0 to go on, or that of the first refusal that applies.
pub fn verdict_number(v: Result<(), Refusal>) -> u32
    ensures { result ≡ verdict_number v }
{
    match v {
        Ok(()) => 0,
        Err(refusal) => refusal.number(),
    }
}

// What a call cost: the sectors it stored, and the sum of the delays to their places.
#[derive(Clone, Copy, Debug, PartialEq, Eq)]
pub struct Cost {
    pub stores: u32,
    pub skipped: u32,
}

impl Cost {
    // So many stores, and nothing beside them.
    pub fn stores_alone(stores: u32) -> Cost
        ensures { result ≡ stores_alone stores }
    {
        Cost { stores, skipped: 0 }
    }
}

// What a call answers.
#[derive(Clone, Copy, Debug, PartialEq, Eq)]
pub enum Answer {
    // Format, write, drop, read or park did its work.
    Accepted(Cost),
    // Recovery found the log by walking from its tail, or by a scan.
    Walked { read: u32, cost: Cost },
    Scanned { read: u32, cost: Cost },
    Refused(Refusal),
    Lost(Loss),
    // 10: the stores that were allowed were made, and more were needed.
    PowerFailed(Cost),
}

impl Answer {
    // Of calls that cost nothing but their stores.
    pub fn accepted(stores: u32) -> Answer
        ensures { result ≡ Accepted (stores_alone stores) }
    {
        Answer::Accepted(Cost::stores_alone(stores))
    }

    pub fn walked(read: u32, stores: u32) -> Answer
        ensures { result ≡ Walked read (stores_alone stores) }
    {
        Answer::Walked {
            read,
            cost: Cost::stores_alone(stores),
        }
    }

    pub fn scanned(read: u32, stores: u32) -> Answer
        ensures { result ≡ Scanned read (stores_alone stores) }
    {
        Answer::Scanned {
            read,
            cost: Cost::stores_alone(stores),
        }
    }

    pub fn power_failed(stores: u32) -> Answer
        ensures { result ≡ PowerFailed (stores_alone stores) }
    {
        Answer::PowerFailed(Cost::stores_alone(stores))
    }

    pub fn number(self) -> u32
        ensures { result ≡ number_of self }
    {
        match self {
            Answer::Accepted(_) => 0,
            Answer::Walked { read: _, cost: _ } => 0,
            Answer::Scanned { read: _, cost: _ } => 0,
            Answer::Refused(refusal) => refusal.number(),
            Answer::Lost(loss) => loss.number(),
            Answer::PowerFailed(_) => 10,
        }
    }

    // Turned back before anything was done: everything is left as it came.
    pub fn is_refusal(self) -> bool
        ensures { result ≡ is_refusal self }
    {
        matches!(self, Answer::Refused(_))
    }

    // What the call cost, each number by itself: a cost that is handed on whole goes through memory.
    pub fn stores(self) -> u32
        ensures { result ≡ (cost_of self).stores }
    {
        match self {
            Answer::Accepted(cost) => cost.stores,
            Answer::Walked { read: _, cost } => cost.stores,
            Answer::Scanned { read: _, cost } => cost.stores,
            Answer::Refused(_) => 0,
            Answer::Lost(_) => 0,
            Answer::PowerFailed(cost) => cost.stores,
        }
    }

    pub fn skipped(self) -> u32
        ensures { result ≡ (cost_of self).skipped }
    {
        match self {
            Answer::Accepted(cost) => cost.skipped,
            Answer::Walked { read: _, cost } => cost.skipped,
            Answer::Scanned { read: _, cost } => cost.skipped,
            Answer::Refused(_) => 0,
            Answer::Lost(_) => 0,
            Answer::PowerFailed(cost) => cost.skipped,
        }
    }

    pub fn way(self) -> u32
        ensures { result ≡ way_of self }
    {
        match self {
            Answer::Accepted(_) => 0,
            Answer::Walked { read: _, cost: _ } => 1,
            Answer::Scanned { read: _, cost: _ } => 2,
            Answer::Refused(_) => 0,
            Answer::Lost(_) => 0,
            Answer::PowerFailed(_) => 0,
        }
    }

    pub fn sectors_read(self) -> u32
        ensures { result ≡ reads_of self }
    {
        match self {
            Answer::Accepted(_) => 0,
            Answer::Walked { read, cost: _ } => read,
            Answer::Scanned { read, cost: _ } => read,
            Answer::Refused(_) => 0,
            Answer::Lost(_) => 0,
            Answer::PowerFailed(_) => 0,
        }
    }
}
