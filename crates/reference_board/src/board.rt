// The board: one array of words with everything that a call is lent and hands back. The image lies on it word by word, the used map with a word
// a sector. A word past its end reads as 0 and is not written. Kinds, flags and answers are numbers on it, as all is one array; `kinds` names them.
use crate::kinds::{Call, Phase, Refusal};

// The most sectors and blocks of a volume. Its pieces are 50 at most, and there is room for more.
pub const N_MOST: u32 = 1040;

pub const L_MOST: u32 = 4800;

pub const P_MOST: u32 = 64;
// The blocks that a call may be lent.
pub const COUNT_MOST: u32 = 80;
// The commits that a batch may be lent: two more than it may have.
pub const COMMITS_MOST: u32 = 34;

// The state.
pub const STATE_N: u32 = 0;

pub const STATE_L: u32 = 1;
// The tail's sector, and its number.
pub const TAIL: u32 = 2;

pub const NUMBER: u32 = 3;
// `kinds::Phase`, by its number.
pub const PHASE: u32 = 4;
// The drive's settings: sectors a track, tracks, and the head switch in sector times.
pub const PER_TRACK: u32 = 5;

pub const TRACKS: u32 = 6;

pub const SWITCH: u32 = 7;
// How many words the settings have, and the state with them.
pub const SETTING_WORDS: u32 = 3;

pub const STATE_WORDS: u32 = 8;
// `kinds::Call`, by its number.
pub const CALL: u32 = 8;

pub const BATCH: u32 = Call::Batch as u32;
// What a format or a recover is given: L, and the settings in the order of the state.
pub const BLOCK_COUNT: u32 = 9;

pub const GIVEN_PER_TRACK: u32 = 10;

pub const GIVEN_TRACKS: u32 = 11;

pub const GIVEN_SWITCH: u32 = 12;

pub const HEAD: u32 = 13;
// How many blocks a write or a drop names.
pub const COUNT: u32 = 14;
// The stores that may be made.
pub const ALLOWED: u32 = 15;
// The lengths lent: the image's and the used map's in bytes, those of the other tables in words.
pub const IMAGE_LENGTH: u32 = 16;

pub const MAP_LENGTH: u32 = 17;

pub const PLACES_LENGTH: u32 = 18;

pub const NUMBERS_LENGTH: u32 = 19;

pub const USED_LENGTH: u32 = 20;
// The bytes of a write, or of a read's buffer.
pub const BYTES_LENGTH: u32 = 21;
// What was answered: 0, or the number of a `kinds::Refusal`.
pub const ANSWER: u32 = 22;

pub const STORES: u32 = 23;
// 0, or the number of a `kinds::Way`.
pub const WAY: u32 = 24;
// The sectors read.
pub const READS: u32 = 25;
// Of a write or a drop, the sum of the delays to the stores made.
pub const SKIPPED: u32 = 26;
// How many words the answer has.
pub const ANSWER_WORDS: u32 = 5;
// Within a call, the stores that are listed so far.
pub const LISTED: u32 = 27;
// Within a commit: branches of the first member, where the next search begins, members made, and the last one's sector.
pub const BRANCH_COUNT: u32 = 28;

pub const NEXT: u32 = 29;

pub const MEMBERS: u32 = 30;

pub const LAST_PLACE: u32 = 31;
// Within a recovery, the tail that was found and its number.
pub const FOUND_TAIL: u32 = 32;

pub const FOUND_NUMBER: u32 = 33;
// Within a call, the stores listed so far that are not of zeros.
pub const FILLED: u32 = 34;
// The lengths lent to a batch: the words of its commits and of its answers, and of all commits the block numbers and the bytes.
pub const COMMITS_LENGTH: u32 = 35;

pub const ANSWERS_LENGTH: u32 = 36;

pub const BACKLOG_COUNT: u32 = 37;

pub const BACKLOG_BYTES: u32 = 38;
// How many commits of a batch were answered.
pub const COMMITS_ANSWERED: u32 = 39;
// Within a batch, what its commits cost so far.
pub const TOTAL_STORES: u32 = 40;

pub const TOTAL_SKIPPED: u32 = 41;
// The blocks that a call names; a read's is the first.
pub const BLOCKS: u32 = 64;
// The commits of a batch, four words each: kind (0 a write, 1 a drop), head, and how many block numbers and bytes are its own.
pub const COMMITS: u32 = BLOCKS + COUNT_MOST;
// Their answers, five words each: the answer, its stores, its delays, and the tail and the number after it.
pub const ANSWERS: u32 = COMMITS + COMMITS_MOST * 4;
// The block numbers of all commits, one after the other.
pub const BACKLOG_BLOCKS: u32 = ANSWERS + COMMITS_MOST * 5;
// The words of a write's blocks, 128 for each.
pub const DATA: u32 = BACKLOG_BLOCKS + COUNT_MOST;
// The words of all writes of a batch, one after the other.
pub const BACKLOG_DATA: u32 = DATA + COUNT_MOST * 128;
// The words of a read.
pub const OUT: u32 = BACKLOG_DATA + COUNT_MOST * 128;
// The tables lent.
pub const LENT: u32 = OUT + 128;
// Within tables: the map from 0 on, and these.
pub const PLACES: u32 = L_MOST;

pub const NUMBERS: u32 = PLACES + P_MOST;

pub const USED: u32 = NUMBERS + P_MOST;
// A word a sector, and those of two bytes more.
pub const USED_WORDS: u32 = N_MOST + 16;

pub const TABLE_WORDS: u32 = USED + USED_WORDS;

pub const IMAGE: u32 = LENT + TABLE_WORDS;
// From here up to the next, the caller may keep words of its own: one a block, and 256.
pub const CALLER: u32 = IMAGE + N_MOST * 128;
// The tables that a call makes, before it keeps them.
pub const MADE: u32 = CALLER + 256 + L_MOST;
// How often each sector is named.
pub const TALLY: u32 = MADE + TABLE_WORDS;
// Flags of a commit, for each piece: written, looked at, and reached or listed; and the branches that are listed.
pub const TOUCHED: u32 = TALLY + N_MOST;

pub const JUDGED: u32 = TOUCHED + P_MOST;

pub const REACHED: u32 = JUDGED + P_MOST;

pub const BRANCHES: u32 = REACHED + P_MOST;
// Of a walk, for each piece: the sector that waits, 0 where none does, and whether it is done.
pub const WAITING: u32 = BRANCHES + P_MOST;

pub const DONE: u32 = WAITING + P_MOST;
// The stores listed, at most those of a format: their places, and which of the sectors of words below they store.
pub const LIST_PLACES: u32 = DONE + P_MOST;

pub const LIST_WORDS: u32 = LIST_PLACES + N_MOST + P_MOST;
// Of each store of a commit, the delay to its place.
pub const LIST_DELAYS: u32 = LIST_WORDS + N_MOST + P_MOST;
// Sectors of words: the first stays zero, then one for each store that is not of zeros, at most those of a commit.
pub const LIST: u32 = LIST_DELAYS + COUNT_MOST + P_MOST;
// The words of a board.
pub const SIZE: usize = LIST as usize + (1 + COUNT_MOST as usize + P_MOST as usize) * 128;

// The sum, with wrapping.
pub fn plus(x: u32, y: u32) -> u32 {
    x.wrapping_add(y)
}

// The difference, with wrapping.
pub fn minus(x: u32, y: u32) -> u32 {
    x.wrapping_sub(y)
}

// The bytes of so many sectors, with wrapping.
pub fn bytes(sectors: u32) -> u32 {
    sectors.wrapping_mul(512)
}

fn get_at(board: &[u32; SIZE], at: usize) -> u32 {
    if at < SIZE {
        return board[at];
    }
    0
}

fn put_at(board: &mut [u32; SIZE], at: usize, x: u32) {
    if at < SIZE {
        board[at] = x;
    }
}

// Word i of those that begin at `from`.
pub fn get(board: &[u32; SIZE], from: u32, i: u32) -> u32 {
    get_at(board, from as usize + i as usize)
}

pub fn put(board: &mut [u32; SIZE], from: u32, i: u32, x: u32) {
    put_at(board, from as usize + i as usize, x);
}

// The call that stands on the board.
pub fn call(board: &[u32; SIZE]) -> Call {
    Call::from(get(board, CALL, 0))
}

pub fn put_call(board: &mut [u32; SIZE], call: Call) {
    put(board, CALL, 0, call as u32);
}

pub fn phase(board: &[u32; SIZE]) -> Phase {
    Phase::from(get(board, PHASE, 0))
}

pub fn put_phase(board: &mut [u32; SIZE], phase: Phase) {
    put(board, PHASE, 0, phase as u32);
}

pub fn is_accepted(board: &[u32; SIZE]) -> bool {
    get(board, ANSWER, 0) == 0
}

pub fn refuse(board: &mut [u32; SIZE], refusal: Refusal) {
    put(board, ANSWER, 0, refusal as u32);
}

// Word i of the k-th sector of those that begin at `from`.
pub fn word(board: &[u32; SIZE], from: u32, k: u32, i: u32) -> u32 {
    get_at(board, from as usize + k as usize * 128 + i as usize)
}

pub fn put_word(board: &mut [u32; SIZE], from: u32, k: u32, i: u32, x: u32) {
    put_at(board, from as usize + k as usize * 128 + i as usize, x);
}

// Word i of the k-th commit of a batch. (For the answers these stand again: to hand the start and the width over would take as many lines.)
pub fn commit_word(board: &[u32; SIZE], k: u32, i: u32) -> u32 {
    get_at(board, COMMITS as usize + k as usize * 4 + i as usize)
}

pub fn put_commit_word(board: &mut [u32; SIZE], k: u32, i: u32, x: u32) {
    put_at(board, COMMITS as usize + k as usize * 4 + i as usize, x);
}

// Word i of the k-th commit's answer.
pub fn answer_word(board: &[u32; SIZE], k: u32, i: u32) -> u32 {
    get_at(board, ANSWERS as usize + k as usize * 5 + i as usize)
}

pub fn put_answer_word(board: &mut [u32; SIZE], k: u32, i: u32, x: u32) {
    put_at(board, ANSWERS as usize + k as usize * 5 + i as usize, x);
}

// A part of the board is its first word and a count, here and everywhere. Word by word, as a part may go past the end.
pub fn fill(board: &mut [u32; SIZE], from: u32, count: u32, x: u32) {
    for i in 0..count {
        put(board, from, i, x);
    }
}

fn copy_one(board: &mut [u32; SIZE], to: u32, from: u32, i: u32) {
    let x = get(board, from, i);
    put(board, to, i, x);
}

pub fn copy(board: &mut [u32; SIZE], to: u32, from: u32, count: u32) {
    for i in 0..count {
        copy_one(board, to, from, i);
    }
}

fn copy_word(board: &mut [u32; SIZE], to: u32, j: u32, from: u32, k: u32, i: u32) {
    let x = word(board, from, k, i);
    put_word(board, to, j, i, x);
}

// Copies the k-th sector from `from` to the j-th from `to`.
pub fn copy_sector(board: &mut [u32; SIZE], to: u32, j: u32, from: u32, k: u32) {
    for i in 0..128u32 {
        copy_word(board, to, j, from, k, i);
    }
}

pub fn fill_sector(board: &mut [u32; SIZE], from: u32, k: u32, x: u32) {
    for i in 0..128u32 {
        put_word(board, from, k, i, x);
    }
}

pub fn is_zero_sector(board: &[u32; SIZE], from: u32, k: u32) -> bool {
    (0..128u32).all(|i| word(board, from, k, i) == 0)
}

// Pieces of a map of l entries: l / 96, rounded up.
pub fn pieces(l: u32) -> u32 {
    l.div_ceil(96)
}

// Bytes of a used map: one bit a sector.
pub fn used_bytes(n: u32) -> u32 {
    n.div_ceil(8)
}

// The sum of a sector's words, with wrapping.
pub fn sum(board: &[u32; SIZE], from: u32, k: u32) -> u32 {
    (0..128u32).fold(0, |s, i| plus(s, word(board, from, k, i)))
}
