// The scan: the log as all N sectors tell it.
use reference_board::kinds::{Refusal, Way};
use reference_board::{board, consistent, journal, valid};

// The sector of the highest number on a signed closing sector.
fn newest_closing(b: &[u32; board::SIZE], n: u32, l: u32) -> Option<u32> {
    (0..n)
        .filter(|k| valid::is_closing(b, *k, n, l))
        .reduce(|best, k| newer(b, best, k))
}

fn newer(b: &[u32; board::SIZE], best: u32, k: u32) -> u32 {
    if valid::number_of(b, k) > valid::number_of(b, best) {
        return k;
    }
    best
}

// Whether a sector is signed, of piece q and numbered c at most.
fn is_candidate(b: &[u32; board::SIZE], k: u32, q: u32, c: u32, n: u32, l: u32) -> bool {
    valid::piece_of(b, k) == q && valid::number_of(b, k) <= c && valid::is_valid(b, k, n, l)
}

// The sector of piece q: its highest number up to c.
fn piece_sector(b: &[u32; board::SIZE], q: u32, c: u32, n: u32, l: u32) -> Option<u32> {
    (0..n)
        .filter(|k| is_candidate(b, *k, q, c, n, l))
        .reduce(|best, k| newer(b, best, k))
}

// Whether a signed sector before k has the number of k.
fn has_equal(b: &[u32; board::SIZE], k: u32, n: u32, l: u32) -> bool {
    (0..k).any(|j| {
        valid::number_of(b, j) == valid::number_of(b, k) && valid::is_valid(b, j, n, l)
    })
}

fn has_equal_numbers(b: &[u32; board::SIZE], n: u32, l: u32) -> bool {
    (0..n).any(|k| valid::is_valid(b, k, n, l) && has_equal(b, k, n, l))
}

fn take_entry(b: &mut [u32; board::SIZE], k: u32, q: u32, i: u32, l: u32) {
    if q < 256 && i < 96 {
        let entry = board::word(b, board::IMAGE, k, 32 + i);
        put_entry(b, q * 96 + i, entry, l);
    }
}

fn put_entry(b: &mut [u32; board::SIZE], block: u32, entry: u32, l: u32) {
    if block < l {
        board::put(b, board::MADE, block, entry);
    }
}

// Takes sector k as the live one of piece q.
pub fn take(b: &mut [u32; board::SIZE], k: u32, q: u32, l: u32) {
    let number = valid::number_of(b, k);
    board::put(b, board::plus(board::MADE, board::PLACES), q, k);
    board::put(b, board::plus(board::MADE, board::NUMBERS), q, number);
    for i in 0..96u32 {
        take_entry(b, k, q, i, l);
    }
}

fn take_piece(b: &mut [u32; board::SIZE], q: u32, c: u32, n: u32, l: u32) -> bool {
    match piece_sector(b, q, c, n, l) {
        Some(k) => {
            take(b, k, q, l);
            true
        }
        None => false,
    }
}

// Takes the sector of every piece, and says whether all have one.
fn take_pieces(b: &mut [u32; board::SIZE], c: u32, n: u32, l: u32) -> bool {
    let p = board::pieces(l);
    let mut all = true;
    for q in 0..p {
        all &= take_piece(b, q, c, n, l);
    }
    all
}

fn is_uncommitted(b: &[u32; board::SIZE], k: u32, c: u32, n: u32, l: u32) -> bool {
    valid::number_of(b, k) > c && valid::is_valid(b, k, n, l)
}

fn list_uncommitted(b: &mut [u32; board::SIZE], k: u32, c: u32, n: u32, l: u32) {
    if is_uncommitted(b, k, c, n, l) {
        journal::list_blank(b, k);
    }
}

fn list_all_uncommitted(b: &mut [u32; board::SIZE], c: u32, n: u32, l: u32) {
    for k in 0..n {
        list_uncommitted(b, k, c, n, l);
    }
}

// Lists the zeroing of signed sectors numbered above c, and of sector 0 unless that is zero by then.
fn list_zeros(b: &mut [u32; board::SIZE], c: u32, n: u32, l: u32) {
    list_all_uncommitted(b, c, n, l);
    if !is_uncommitted(b, 0, c, n, l) {
        list_park_sector(b);
    }
}

pub fn list_park_sector(b: &mut [u32; board::SIZE]) {
    if !board::is_zero_sector(b, board::IMAGE, 0) {
        journal::list_blank(b, 0);
    }
}

// What a recovery has found, by which way, and the sectors read for it.
pub fn put_found(b: &mut [u32; board::SIZE], tail: u32, way: Way, read: u32) {
    let number = valid::number_of(b, tail);
    board::put(b, board::FOUND_TAIL, 0, tail);
    board::put(b, board::FOUND_NUMBER, 0, number);
    board::put(b, board::WAY, 0, way as u32);
    board::put(b, board::READS, 0, read);
}

// Whether each piece has a sector up to c, and these give consistent tables.
fn is_whole(b: &mut [u32; board::SIZE], tail: u32, c: u32, n: u32, l: u32) -> bool {
    board::fill(b, board::MADE, board::TABLE_WORDS, 0);
    if !take_pieces(b, c, n, l) {
        return false;
    }
    consistent::put_used(b, board::MADE, n, l);
    consistent::is_consistent(b, board::MADE, n, l, tail, c)
}

// What a scan makes of the image: tables made and stores listed, or 8 or 9.
pub fn scan(b: &mut [u32; board::SIZE], n: u32, l: u32) -> Result<(), Refusal> {
    let tail = newest_closing(b, n, l).ok_or(Refusal::NoLog)?;
    let c = valid::number_of(b, tail);
    if has_equal_numbers(b, n, l) || !is_whole(b, tail, c, n, l) {
        return Err(Refusal::DamagedLog);
    }
    list_zeros(b, c, n, l);
    put_found(b, tail, Way::Scan, n);
    Ok(())
}
