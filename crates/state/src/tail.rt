// The tail: where a log that was found again ends.

// The sector of the newest closed commit's closing map sector, and its number.
#[derive(Clone, Copy)]
pub struct Tail {
    pub sector: u32,
    pub number: u32,
}
