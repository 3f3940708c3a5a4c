// A backlog on the board: commits are added one after the other, and a batch is lent them all.
use crate::cells;
use reference_board::board;
use reference_board::kinds::Call;

// No commits.
pub fn clear(b: &mut [u32; board::SIZE]) {
    cells::set(b, board::COMMITS_LENGTH, 0);
    cells::set(b, board::ANSWERS_LENGTH, 0);
    cells::set(b, board::BACKLOG_COUNT, 0);
    cells::set(b, board::BACKLOG_BYTES, 0);
}

// Whether two lengths together are at most a third.
fn fit(x: u32, y: u32, most: u32) -> bool {
    x as u64 + y as u64 <= most as u64
}

// Whether there is room for the blocks and the bytes that stand on the board.
fn has_room(b: &[u32; board::SIZE]) -> bool {
    cells::get(b, board::COMMITS_LENGTH) / 4 < board::COMMITS_MOST
        && fit(
            cells::get(b, board::BACKLOG_COUNT),
            cells::get(b, board::COUNT),
            board::COUNT_MOST,
        )
        && fit(
            cells::get(b, board::BACKLOG_BYTES),
            cells::get(b, board::BYTES_LENGTH),
            board::COUNT_MOST * 512,
        )
}

fn add_lists(b: &mut [u32; board::SIZE]) {
    let first = cells::get(b, board::BACKLOG_COUNT);
    let words = cells::get(b, board::BACKLOG_BYTES) / 4;
    let count = cells::get(b, board::COUNT);
    let bytes = cells::get(b, board::BYTES_LENGTH);
    board::copy(
        b,
        board::plus(board::BACKLOG_BLOCKS, first),
        board::BLOCKS,
        count,
    );
    board::copy(
        b,
        board::plus(cells::BACKLOG_SEEDS, first),
        cells::SEEDS,
        count,
    );
    board::copy(
        b,
        board::plus(board::BACKLOG_DATA, words),
        board::DATA,
        bytes / 4,
    );
    cells::add(b, board::BACKLOG_COUNT, count);
    cells::add(b, board::BACKLOG_BYTES, bytes);
}

fn add_words(b: &mut [u32; board::SIZE], kind: u32) {
    let i = cells::get(b, board::COMMITS_LENGTH) / 4;
    let head = cells::get(b, board::HEAD);
    let count = cells::get(b, board::COUNT);
    let bytes = cells::get(b, board::BYTES_LENGTH);
    board::put_commit_word(b, i, 0, kind);
    board::put_commit_word(b, i, 1, head);
    board::put_commit_word(b, i, 2, count);
    board::put_commit_word(b, i, 3, bytes);
    cells::add(b, board::COMMITS_LENGTH, 4);
    cells::add(b, board::ANSWERS_LENGTH, 5);
}

// Head, blocks and bytes that stand on the board are one more commit, of this kind, where there is room. The kind is the number that
// the C interface has among a commit's words.
pub fn add(b: &mut [u32; board::SIZE], kind: u32) {
    if has_room(b) {
        add_lists(b);
        add_words(b, kind);
    }
}

fn mark_answers(b: &mut [u32; board::SIZE], mark: u32) {
    for i in 0..board::COMMITS_MOST * 5 {
        board::put(b, board::ANSWERS, i, board::plus(mark, i));
    }
}

// The backlog stands on the board as a batch. The words of its answers count up from a mark, so that they are known again.
pub fn stand(b: &mut [u32; board::SIZE], mark: u32) {
    board::put_call(b, Call::Batch);
    cells::set(b, cells::MARK, mark);
    mark_answers(b, mark);
}

// The mark of the k-th answer.
fn mark_of(b: &[u32; board::SIZE], k: u32) -> u32 {
    board::plus(cells::get(b, cells::MARK), k.wrapping_mul(5))
}

// Whether the words of the k-th answer are as they came.
pub fn is_untouched(b: &[u32; board::SIZE], k: u32) -> bool {
    let mark = mark_of(b, k);
    (0..5u32).all(|i| board::answer_word(b, k, i) == board::plus(mark, i))
}
