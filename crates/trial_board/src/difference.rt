// What may differ: what the comparison of both implementations finds, and what else a trial holds them to. It stands on the board by its number.

#[derive(Clone, Copy, PartialEq, Eq)]
pub enum Difference {
    Answers = 1,
    Stores = 2,
    Ways = 3,
    SectorsRead = 4,
    States = 5,
    Images = 6,
    Maps = 7,
    Places = 8,
    Numbers = 9,
    UsedMaps = 10,
    BytesRead = 11,
    Skipped = 12,
    PlainDisk = 13,
    CutAnswer = 14,
    NotRecovered = 15,
    Sample = 16,
    CommitsAnswered = 17,
    CommitAnswers = 18,
}

// Only numbers of differences are put on the board.
impl From<u32> for Difference {
    fn from(number: u32) -> Difference {
        match number {
            1 => Difference::Answers,
            2 => Difference::Stores,
            3 => Difference::Ways,
            4 => Difference::SectorsRead,
            5 => Difference::States,
            6 => Difference::Images,
            7 => Difference::Maps,
            8 => Difference::Places,
            9 => Difference::Numbers,
            10 => Difference::UsedMaps,
            11 => Difference::BytesRead,
            12 => Difference::Skipped,
            13 => Difference::PlainDisk,
            14 => Difference::CutAnswer,
            15 => Difference::NotRecovered,
            17 => Difference::CommitsAnswered,
            18 => Difference::CommitAnswers,
            _ => Difference::Sample,
        }
    }
}

// Whether something holds, and otherwise what differs.
pub fn ensure(holds: bool, what: Difference) -> Result<(), Difference> {
    if holds { Ok(()) } else { Err(what) }
}
