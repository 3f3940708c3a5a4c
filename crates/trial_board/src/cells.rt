// What the trial keeps on the board beside the volume.
use crate::difference;
use crate::difference::Difference;
use reference_board::board;
use reference_board::kinds::Call;

// The generator's state.
pub const SEED: u32 = board::CALLER;

// Of the volume's blocks every so-manieth is written.
pub const SPREAD: u32 = board::CALLER + 1;

// The most blocks in a write, and in a drop.
pub const MOST_WRITTEN: u32 = board::CALLER + 2;

pub const MOST_DROPPED: u32 = board::CALLER + 3;

// The counts from here on are taken back from a copy of the board.
pub const COUNTS: u32 = board::CALLER + 4;

pub const CALLS: u32 = board::CALLER + 4;

// Power cuts, and those of them in recoveries.
pub const CUTS: u32 = board::CALLER + 5;

pub const RECOVERY_CUTS: u32 = board::CALLER + 6;

pub const WALKS: u32 = board::CALLER + 7;

pub const FOLDS: u32 = board::CALLER + 8;

pub const WRAPS: u32 = board::CALLER + 9;

// Blocks held to the plain disk, and facts of a script.
pub const BLOCKS_READ: u32 = board::CALLER + 10;

pub const FACTS: u32 = board::CALLER + 11;

pub const DIFFERENCES: u32 = board::CALLER + 12;

// Of the first difference: what it was, in which call, after how many calls, and in which line of a script.
pub const FIRST: u32 = board::CALLER + 13;

pub const FIRST_CALL: u32 = board::CALLER + 14;

pub const FIRST_AT: u32 = board::CALLER + 15;

pub const FIRST_LINE: u32 = board::CALLER + 16;

// Power cuts in folds.
pub const FOLD_CUTS: u32 = board::CALLER + 17;

// How often each number was answered; there is room for 0 to 17.
pub const ANSWERED: u32 = board::CALLER + 18;

// Commits whose closing sector lies on another track than the head.
pub const SWITCHES: u32 = board::CALLER + 36;

// Batches, and how often each number was answered to their commits: to any, and to those that come after others. There is room for 0 to 12.
pub const BATCHES: u32 = board::CALLER + 37;

pub const COMMITS_ANSWERED: u32 = board::CALLER + 38;

pub const LATER_ANSWERED: u32 = board::CALLER + 51;

pub const COUNT_WORDS: u32 = 60;

// The block that is named next.
pub const CURSOR: u32 = board::CALLER + 64;

// Of a script: the bytes that a call is lent too many, and the line.
pub const BYTES_MORE: u32 = board::CALLER + 65;

pub const LINE: u32 = board::CALLER + 66;

// Whether recoveries are given other settings than the format (1, as a cell is a number), and of those that the format was given the
// tracks and the switch.
pub const VARIED: u32 = board::CALLER + 67;

pub const OWN_TRACKS: u32 = board::CALLER + 68;

pub const OWN_SWITCH: u32 = board::CALLER + 69;

// The word from which the answers of a batch count up before it.
pub const MARK: u32 = board::CALLER + 70;

// The seeds of the blocks of a write, and of those of a backlog.
pub const SEEDS: u32 = board::CALLER + 72;

pub const BACKLOG_SEEDS: u32 = board::CALLER + 152;

// The plain disk: a seed for each block.
pub const DISK: u32 = board::CALLER + 256;

pub fn get(b: &[u32; board::SIZE], cell: u32) -> u32 {
    board::get(b, cell, 0)
}

pub fn set(b: &mut [u32; board::SIZE], cell: u32, x: u32) {
    board::put(b, cell, 0, x);
}

pub fn add(b: &mut [u32; board::SIZE], cell: u32, x: u32) {
    let sum = board::plus(get(b, cell), x);
    set(b, cell, sum);
}

// One more in word i of those that begin at `from`.
pub fn add_one(b: &mut [u32; board::SIZE], from: u32, i: u32) {
    let x = board::get(b, from, i);
    board::put(b, from, i, board::plus(x, 1));
}

fn note_first(b: &mut [u32; board::SIZE], what: Difference) {
    if get(b, DIFFERENCES) == 0 {
        let call = get(b, board::CALL);
        let calls = get(b, CALLS);
        let line = get(b, LINE);
        set(b, FIRST, what as u32);
        set(b, FIRST_CALL, call);
        set(b, FIRST_AT, calls);
        set(b, FIRST_LINE, line);
    }
}

// Notes what differs, if anything does.
pub fn note(b: &mut [u32; board::SIZE], found: Result<(), Difference>) {
    if let Err(what) = found {
        note_first(b, what);
        add(b, DIFFERENCES, 1);
    }
}

// Notes a difference where something does not hold.
pub fn hold(b: &mut [u32; board::SIZE], holds: bool, what: Difference) {
    note(b, difference::ensure(holds, what));
}

fn keep_one(c: &mut [u32; board::SIZE], b: &[u32; board::SIZE], from: u32, i: u32) {
    board::put(c, from, i, board::get(b, from, i));
}

// A part of a board is its first word and a count, as in all that works on it.
fn keep_words(c: &mut [u32; board::SIZE], b: &[u32; board::SIZE], from: u32, count: u32) {
    for i in 0..count {
        keep_one(c, b, from, i);
    }
}

// Words of the image lent; a sector that is not whole does not count.
pub fn image_words(b: &[u32; board::SIZE]) -> u32 {
    board::get(b, board::IMAGE_LENGTH, 0) / 512 * 128
}

// Words of a batch's bytes; none where the call is another.
fn backlog_words(b: &[u32; board::SIZE]) -> u32 {
    if board::call(b) == Call::Batch {
        return get(b, board::BACKLOG_BYTES) / 4;
    }
    0
}

// Puts the volume, the call and the counts of one board on another, which was blank.
pub fn keep(c: &mut [u32; board::SIZE], b: &[u32; board::SIZE]) {
    keep_words(c, b, 0, board::DATA);
    keep_words(c, b, board::DATA, get(b, board::BYTES_LENGTH) / 4);
    keep_words(c, b, board::BACKLOG_DATA, backlog_words(b));
    keep_words(c, b, board::LENT, board::TABLE_WORDS);
    keep_words(c, b, board::IMAGE, image_words(b));
    keep_words(c, b, board::CALLER, DISK - board::CALLER);
    keep_words(c, b, DISK, get(b, board::BLOCK_COUNT));
}

// Takes the counts back, and the generator's state.
pub fn carry(b: &mut [u32; board::SIZE], c: &[u32; board::SIZE]) {
    keep_words(b, c, SEED, 1);
    keep_words(b, c, COUNTS, COUNT_WORDS);
}

// Word 1 of a sector balances its sum.
pub fn balance(b: &mut [u32; board::SIZE], k: u32) {
    board::put_word(b, board::IMAGE, k, 1, 0);
    let sum = board::sum(b, board::IMAGE, k);
    board::put_word(b, board::IMAGE, k, 1, board::minus(0, sum));
}
