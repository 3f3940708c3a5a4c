// Document 01's "sound": tables that may be worked with. `t` is where on the board they begin.
use crate::{board, valid};

// The sector that an entry names: its bits 0 to 30.
pub fn sector_of(entry: u32) -> u32 {
    entry % 2_147_483_648
}

// A name that no sector has is not counted.
fn tally_sector(b: &mut [u32; board::SIZE], k: u32) {
    if k < board::N_MOST {
        let seen = board::get(b, board::TALLY, k);
        board::put(b, board::TALLY, k, board::plus(seen, 1));
    }
}

fn tally_entry(b: &mut [u32; board::SIZE], t: u32, i: u32) {
    let entry = board::get(b, t, i);
    if entry != 0 {
        tally_sector(b, sector_of(entry));
    }
}

// A loop of its own for each step, here and below: lent to one for all, a step would take as many lines.
fn tally_entries(b: &mut [u32; board::SIZE], t: u32, l: u32) {
    for i in 0..l {
        tally_entry(b, t, i);
    }
}

fn tally_place(b: &mut [u32; board::SIZE], t: u32, q: u32) {
    let place = place_at(b, t, q);
    tally_sector(b, place);
}

fn tally_places(b: &mut [u32; board::SIZE], t: u32, p: u32) {
    for q in 0..p {
        tally_place(b, t, q);
    }
}

// Counts how often each sector is named.
fn tally(b: &mut [u32; board::SIZE], t: u32, l: u32) {
    board::fill(b, board::TALLY, board::N_MOST, 0);
    tally_entries(b, t, l);
    tally_places(b, t, board::pieces(l));
}

fn entries_in_range(b: &[u32; board::SIZE], t: u32, n: u32, l: u32) -> bool {
    (0..l).all(|i| entry_fits(board::get(b, t, i), n))
}

fn entry_fits(entry: u32, n: u32) -> bool {
    entry == 0 || valid::is_place(sector_of(entry), n)
}

fn places_in_range(b: &[u32; board::SIZE], t: u32, n: u32, p: u32) -> bool {
    (0..p).all(|q| valid::is_place(place_at(b, t, q), n))
}

// What the used map has to say of sector k.
fn used_of(b: &[u32; board::SIZE], k: u32) -> u32 {
    if k == 0 {
        return 1;
    }
    board::get(b, board::TALLY, k)
}

// The used bits are sector 0 and the sectors named, none of them twice.
fn used_agrees(b: &[u32; board::SIZE], t: u32, n: u32) -> bool {
    (0..n).all(|k| {
        let bit = bit_at(b, t, k);
        bit <= 1 && bit == used_of(b, k)
    })
}

// The bits after sector n - 1, up to the end of its byte, are zero.
fn spare_zero(b: &[u32; board::SIZE], t: u32, n: u32) -> bool {
    (0..8u32).all(|i| bit_at(b, t, board::plus(n, i)) == 0)
}

pub fn free_count(b: &[u32; board::SIZE], t: u32, n: u32) -> usize {
    (0..n).filter(|k| bit_at(b, t, *k) == 0).count()
}

// The word that stands for a sector's used bit. (Each table has its name here, so that a caller says which it reads.)
pub fn bit_at(b: &[u32; board::SIZE], t: u32, k: u32) -> u32 {
    board::get(b, board::plus(t, board::USED), k)
}

pub fn place_at(b: &[u32; board::SIZE], t: u32, q: u32) -> u32 {
    board::get(b, board::plus(t, board::PLACES), q)
}

pub fn number_at(b: &[u32; board::SIZE], t: u32, q: u32) -> u32 {
    board::get(b, board::plus(t, board::NUMBERS), q)
}

// Whether a piece before q has its number.
fn has_equal(b: &[u32; board::SIZE], t: u32, q: u32) -> bool {
    (0..q).any(|r| number_at(b, t, r) == number_at(b, t, q))
}

fn numbers_fit(b: &[u32; board::SIZE], t: u32, p: u32) -> bool {
    (0..p).all(|q| number_at(b, t, q) != 0 && !has_equal(b, t, q))
}

fn is_greatest(b: &[u32; board::SIZE], t: u32, p: u32, number: u32) -> bool {
    (0..p).all(|q| number_at(b, t, q) <= number)
}

// Whether some piece lives in the tail's sector with the tail's number, and no number is greater.
fn tail_fits(b: &[u32; board::SIZE], t: u32, p: u32, tail: u32, number: u32) -> bool {
    (0..p).any(|q| number_at(b, t, q) == number && place_at(b, t, q) == tail)
        && is_greatest(b, t, p, number)
}

pub fn is_consistent(
    b: &mut [u32; board::SIZE],
    t: u32,
    n: u32,
    l: u32,
    tail: u32,
    number: u32,
) -> bool {
    let p = board::pieces(l);
    if !entries_in_range(b, t, n, l) || !places_in_range(b, t, n, p) {
        return false;
    }
    tally(b, t, l);
    used_agrees(b, t, n)
        && spare_zero(b, t, n)
        && free_count(b, t, n) >= p as usize
        && numbers_fit(b, t, p)
        && tail_fits(b, t, p, tail, number)
}

fn mark_used(b: &mut [u32; board::SIZE], t: u32, k: u32) {
    let bit = used_of(b, k);
    board::put(b, board::plus(t, board::USED), k, bit);
}

fn mark_all_used(b: &mut [u32; board::SIZE], t: u32, n: u32) {
    for k in 0..n {
        mark_used(b, t, k);
    }
}

// Makes the used map anew from the sectors that the tables name.
pub fn put_used(b: &mut [u32; board::SIZE], t: u32, n: u32, l: u32) {
    board::fill(b, board::plus(t, board::USED), board::USED_WORDS, 0);
    tally(b, t, l);
    mark_all_used(b, t, n);
}

fn entries_agree(b: &[u32; board::SIZE], k: u32, q: u32, l: u32) -> bool {
    (0..l).filter(|i| *i / 96 == q).all(|i| board::get(b, board::LENT, i)
        == board::word(b, board::IMAGE, k, 32 + i % 96))
}

// Whether the live place of piece q is signed with that piece, its number and its entries.
fn lives(b: &[u32; board::SIZE], q: u32, n: u32, l: u32) -> bool {
    let k = place_at(b, board::LENT, q);
    valid::is_valid(b, k, n, l)
        && valid::piece_of(b, k) == q
        && valid::number_of(b, k) == number_at(b, board::LENT, q)
        && entries_agree(b, k, q, l)
}

pub fn all_live(b: &[u32; board::SIZE], n: u32, l: u32) -> bool {
    (0..board::pieces(l)).all(|q| lives(b, q, n, l))
}
