// A batch on the board: its commits are made one after the other, each as the single write or drop that it is.
use crate::{calls, refusals};
use reference_board::board;
use reference_board::kinds::{Call, Refusal};

// Where the counts stand in a commit's words.
const BLOCK_COUNT: u32 = 2;

const BYTE_COUNT: u32 = 3;

// The counts of the first so many commits added up. (64 bits hold the sum of all that the board has room for.)
fn sum(b: &[u32; board::SIZE], commits: u32, place: u32) -> u64 {
    (0..commits).fold(0, |sum: u64, i| {
        sum.wrapping_add(board::commit_word(b, i, place) as u64)
    })
}

// The commits lent. A rest of words does not count.
fn commits(b: &[u32; board::SIZE]) -> u32 {
    board::get(b, board::COMMITS_LENGTH, 0) / 4
}

// Whether a batch's own buffers have the lengths that belong to each other.
fn buffers_fit(b: &[u32; board::SIZE]) -> bool {
    let count = commits(b);
    board::get(b, board::COMMITS_LENGTH, 0) % 4 == 0
        && board::get(b, board::BACKLOG_COUNT, 0) as u64 == sum(b, count, BLOCK_COUNT)
        && board::get(b, board::BACKLOG_BYTES, 0) as u64 == sum(b, count, BYTE_COUNT)
        && board::get(b, board::ANSWERS_LENGTH, 0) as u64 == count as u64 * 5
}

// What turns a batch back as a whole: 1, 11, 2 and 12.
fn check(b: &[u32; board::SIZE]) -> Result<(), Refusal> {
    refusals::of_tables(b)?;
    refusals::ensure(buffers_fit(b), Refusal::BufferLength)?;
    refusals::ensure(1 <= commits(b) && commits(b) <= 32, Refusal::CommitCount)
}

// Where the block numbers or the bytes of a commit begin: after those of the commits before it.
fn begins(b: &[u32; board::SIZE], i: u32, place: u32) -> u32 {
    (sum(b, i, place) % 4_294_967_296) as u32
}

// The block numbers and the bytes of a commit are put where those of a single call stand. (Its words begin at a whole word: a write before it
// had 512 bytes for each block, or the batch would have ended there.)
fn put_lists(b: &mut [u32; board::SIZE], i: u32) {
    let blocks = board::plus(board::BACKLOG_BLOCKS, begins(b, i, BLOCK_COUNT));
    let words = board::plus(board::BACKLOG_DATA, begins(b, i, BYTE_COUNT) / 4);
    let count = board::commit_word(b, i, BLOCK_COUNT);
    let bytes = board::commit_word(b, i, BYTE_COUNT);
    board::copy(b, board::BLOCKS, blocks, count);
    board::copy(b, board::DATA, words, bytes / 4);
    board::put(b, board::COUNT, 0, count);
    board::put(b, board::BYTES_LENGTH, 0, bytes);
}

// A commit stands on the board as a single call, with what the commits before it left of the stores.
fn stand(b: &mut [u32; board::SIZE], i: u32, allowed: u32) {
    let left = board::minus(allowed, board::get(b, board::TOTAL_STORES, 0));
    let head = board::commit_word(b, i, 1);
    put_lists(b, i);
    board::put(b, board::HEAD, 0, head);
    board::put(b, board::ALLOWED, 0, left);
}

fn turn_back(b: &mut [u32; board::SIZE], refusal: Refusal) {
    board::fill(b, board::ANSWER, board::ANSWER_WORDS, 0);
    board::refuse(b, refusal);
}

fn make_single(b: &mut [u32; board::SIZE], call: Call) {
    board::put_call(b, call);
    calls::perform(b);
    board::put_call(b, Call::Batch);
}

// The commit that stands on the board. One that is neither a write nor a drop is 3. Its kind is a number, as among a commit's words.
fn make(b: &mut [u32; board::SIZE], kind: u32) {
    match kind {
        0 => make_single(b, Call::Write),
        1 => make_single(b, Call::Drop),
        _ => turn_back(b, Refusal::Arguments),
    }
}

fn put_answer(b: &mut [u32; board::SIZE], i: u32, word: u32, cell: u32) {
    let x = board::get(b, cell, 0);
    board::put_answer_word(b, i, word, x);
}

// Adds one cell to another.
fn add(b: &mut [u32; board::SIZE], total: u32, cell: u32) {
    let sum = board::plus(board::get(b, total, 0), board::get(b, cell, 0));
    board::put(b, total, 0, sum);
}

// What a commit answered goes to the answers, and what it cost to the totals.
fn answer(b: &mut [u32; board::SIZE], i: u32) {
    put_answer(b, i, 0, board::ANSWER);
    put_answer(b, i, 1, board::STORES);
    put_answer(b, i, 2, board::SKIPPED);
    put_answer(b, i, 3, board::TAIL);
    put_answer(b, i, 4, board::NUMBER);
    add(b, board::TOTAL_STORES, board::STORES);
    add(b, board::TOTAL_SKIPPED, board::SKIPPED);
    board::put(b, board::COMMITS_ANSWERED, 0, board::plus(i, 1));
}

// Makes a commit, and says whether it was accepted.
fn accept(b: &mut [u32; board::SIZE], i: u32, allowed: u32) -> bool {
    let kind = board::commit_word(b, i, 0);
    stand(b, i, allowed);
    make(b, kind);
    answer(b, i);
    board::is_accepted(b)
}

// The commits, up to the first that is not accepted.
fn make_all(b: &mut [u32; board::SIZE], allowed: u32) {
    let count = commits(b);
    for i in 0..count {
        if !accept(b, i, allowed) {
            return;
        }
    }
}

// The commits, and what they answer together.
fn carry_out(b: &mut [u32; board::SIZE]) {
    let allowed = board::get(b, board::ALLOWED, 0);
    board::put(b, board::TOTAL_STORES, 0, 0);
    board::put(b, board::TOTAL_SKIPPED, 0, 0);
    make_all(b, allowed);
    board::put(b, board::ALLOWED, 0, allowed);
    board::put(b, board::ANSWER, 0, 0);
    board::copy(b, board::STORES, board::TOTAL_STORES, 1);
    board::copy(b, board::SKIPPED, board::TOTAL_SKIPPED, 1);
}

// Performs the batch that stands on the board, and leaves its answers there.
pub fn perform(b: &mut [u32; board::SIZE]) {
    board::put(b, board::COMMITS_ANSWERED, 0, 0);
    match check(b) {
        Ok(()) => carry_out(b),
        Err(refusal) => turn_back(b, refusal),
    }
}
