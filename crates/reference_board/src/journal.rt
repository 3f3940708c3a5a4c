// The list of a call's stores: places and whole sectors, in the order in which they are made.
use crate::kinds::Refusal;
use crate::{board, valid};

// Lists a store at k of one of the sectors of words: the first of them is zero.
fn list_sector(b: &mut [u32; board::SIZE], k: u32, words: u32) {
    let j = board::get(b, board::LISTED, 0);
    board::put(b, board::LIST_PLACES, j, k);
    board::put(b, board::LIST_WORDS, j, words);
    board::put(b, board::LISTED, 0, board::plus(j, 1));
}

pub fn list_blank(b: &mut [u32; board::SIZE], k: u32) {
    list_sector(b, k, 0);
}

// Lists a store at k whose words are zero until they are put.
fn list_words(b: &mut [u32; board::SIZE], k: u32) {
    let words = board::plus(last(b), 1);
    board::put(b, board::FILLED, 0, words);
    board::fill_sector(b, board::LIST, words, 0);
    list_sector(b, k, words);
}

// Where the words are of the store that was listed last with words of its own.
fn last(b: &[u32; board::SIZE]) -> u32 {
    board::get(b, board::FILLED, 0)
}

pub fn put_last(b: &mut [u32; board::SIZE], i: u32, x: u32) {
    let words = last(b);
    board::put_word(b, board::LIST, words, i, x);
}

// Word 1 balances the sum.
pub fn balance(b: &mut [u32; board::SIZE]) {
    let sum = board::sum(b, board::LIST, last(b));
    put_last(b, 1, board::minus(0, sum));
}

// Lists a data sector: the words of the i-th block lent, the first byte complemented where they begin with the map mark.
pub fn list_data(b: &mut [u32; board::SIZE], k: u32, i: u32) {
    list_words(b, k);
    let words = last(b);
    board::copy_sector(b, board::LIST, words, board::DATA, i);
    if begins_with_mark(b, i) {
        put_last(b, 0, 827_149_481);
    }
}

pub fn begins_with_mark(b: &[u32; board::SIZE], i: u32) -> bool {
    board::word(b, board::DATA, i, 0) == valid::MAP_MARK
}

// Lists a map sector that has no branches and no entries yet.
pub fn list_map(b: &mut [u32; board::SIZE], k: u32, number: u32, piece: u32, closes: bool, l: u32) {
    list_words(b, k);
    put_last(b, 0, valid::MAP_MARK);
    put_last(b, 2, number);
    put_last(b, 4, piece);
    put_last(b, 5, u32::from(closes));
    put_last(b, 7, l);
}

pub fn list_branch(b: &mut [u32; board::SIZE], x: u32) {
    let words = last(b);
    let count = board::word(b, board::LIST, words, 6);
    put_last(b, 6, board::plus(count, 1));
    put_last(b, board::plus(8, count), x);
}

fn put_made_entry(b: &mut [u32; board::SIZE], piece: u32, i: u32) {
    if i < 96 && piece < 256 {
        let entry = board::get(b, board::MADE, piece * 96 + i);
        put_last(b, 32 + i, entry);
    }
}

// The entries of a piece in the map that is made. (Past L the map is zero.)
pub fn list_entries(b: &mut [u32; board::SIZE], piece: u32) {
    for i in 0..96u32 {
        put_made_entry(b, piece, i);
    }
}

pub fn list_park(b: &mut [u32; board::SIZE], number: u32, tail: u32) {
    list_words(b, 0);
    put_last(b, 0, valid::PARK_MARK);
    put_last(b, 2, number);
    put_last(b, 3, tail);
    balance(b);
}

fn make(b: &mut [u32; board::SIZE], j: u32, allowed: u32) {
    if j < allowed {
        let k = board::get(b, board::LIST_PLACES, j);
        let words = board::get(b, board::LIST_WORDS, j);
        board::copy_sector(b, board::IMAGE, k, board::LIST, words);
    }
}

// A loop of its own, as in `consistent`.
fn make_all(b: &mut [u32; board::SIZE], listed: u32, allowed: u32) {
    for j in 0..listed {
        make(b, j, allowed);
    }
}

// Makes the stores listed, in order, as many as are allowed, and says whether those were all.
pub fn perform(b: &mut [u32; board::SIZE]) -> bool {
    let listed = board::get(b, board::LISTED, 0);
    let allowed = board::get(b, board::ALLOWED, 0);
    make_all(b, listed, allowed);
    if listed <= allowed {
        board::put(b, board::STORES, 0, listed);
        return true;
    }
    board::refuse(b, Refusal::PowerCut);
    board::put(b, board::STORES, 0, allowed);
    false
}

// The delays to the first so many stores of a commit, added up.
fn skipped_for(b: &[u32; board::SIZE], made: u32) -> u32 {
    (0..made).fold(0, |skipped, j| {
        board::plus(skipped, board::get(b, board::LIST_DELAYS, j))
    })
}

// Of a commit whose stores are made, as many as were allowed: the delays to these.
pub fn put_skipped(b: &mut [u32; board::SIZE]) {
    let skipped = skipped_for(b, board::get(b, board::STORES, 0));
    board::put(b, board::SKIPPED, 0, skipped);
}
