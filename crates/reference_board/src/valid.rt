// Document 01's "signed": which sectors of the image are map sectors, and the park record.
use crate::board;

// The marks as words: bytes 56 4C 4D 31 and 56 4C 50 31.
pub const MAP_MARK: u32 = 827_149_398;

pub const PARK_MARK: u32 = 827_346_006;

// Whether a place is a sector that may be named: 1 to n - 1.
pub fn is_place(k: u32, n: u32) -> bool {
    k != 0 && k < n
}

fn branch_fits(x: u32, counts: bool, n: u32) -> bool {
    if counts {
        return is_place(x, n);
    }
    x == 0
}

fn branches_fit(b: &[u32; board::SIZE], k: u32, n: u32) -> bool {
    let count = board::word(b, board::IMAGE, k, 6);
    (0..24u32).all(|i| branch_fits(board::word(b, board::IMAGE, k, 8 + i), i < count, n))
}

// Whether block `i` of a piece lies past L.
fn is_past(piece: u32, i: u32, l: u32) -> bool {
    piece as u64 * 96 + i as u64 >= l as u64
}

fn entries_fit(b: &[u32; board::SIZE], k: u32, l: u32) -> bool {
    let piece = board::word(b, board::IMAGE, k, 4);
    (0..96u32).all(|i| !is_past(piece, i, l) || board::word(b, board::IMAGE, k, 32 + i) == 0)
}

// Words 3 to 7: zero, the piece, the kind, the count of branches, L.
fn fields_fit(b: &[u32; board::SIZE], k: u32, l: u32) -> bool {
    board::word(b, board::IMAGE, k, 3) == 0
        && board::word(b, board::IMAGE, k, 4) < board::pieces(l)
        && board::word(b, board::IMAGE, k, 5) <= 1
        && board::word(b, board::IMAGE, k, 6) <= 24
        && board::word(b, board::IMAGE, k, 7) == l
}

pub fn is_valid(b: &[u32; board::SIZE], k: u32, n: u32, l: u32) -> bool {
    board::word(b, board::IMAGE, k, 0) == MAP_MARK
        && number_of(b, k) != 0
        && board::sum(b, board::IMAGE, k) == 0
        && fields_fit(b, k, l)
        && branches_fit(b, k, n)
        && entries_fit(b, k, l)
}

pub fn number_of(b: &[u32; board::SIZE], k: u32) -> u32 {
    board::word(b, board::IMAGE, k, 2)
}

pub fn piece_of(b: &[u32; board::SIZE], k: u32) -> u32 {
    board::word(b, board::IMAGE, k, 4)
}

pub fn is_closing(b: &[u32; board::SIZE], k: u32, n: u32, l: u32) -> bool {
    board::word(b, board::IMAGE, k, 5) == 1 && is_valid(b, k, n, l)
}

// Whether sector 0 is a park record.
pub fn is_park(b: &[u32; board::SIZE]) -> bool {
    board::word(b, board::IMAGE, 0, 0) == PARK_MARK
        && (4..128u32).all(|i| board::word(b, board::IMAGE, 0, i) == 0)
        && board::sum(b, board::IMAGE, 0) == 0
}
