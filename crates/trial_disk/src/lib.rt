// The plain disk: a seed for each block, which stands for its bytes. Seed 0 is a block of zeros.
#![tactic(auto)]

use reference_board::board;
use reference_board::kinds::Call;
use trial_board::cells;
use trial_board::difference::Difference;

fn mixed(seed: u32, i: u32) -> u32 {
    board::plus(seed.wrapping_mul(2_654_435_761), i.wrapping_mul(40_503))
}

// A block that is a map sector in all but its first byte on the volume: mark, balance, number, piece 0, closing, L.
fn forged(seed: u32, l: u32, i: u32) -> u32 {
    match i {
        0 => 827_149_398,
        1 => board::minus(
            0,
            board::plus(board::plus(827_149_398, seed), board::plus(1, l)),
        ),
        2 => seed,
        5 => 1,
        7 => l,
        _ => 0,
    }
}

// Like `mixed`, but for the first word.
fn begun(seed: u32, i: u32, first: u32) -> u32 {
    if i == 0 {
        return first;
    }
    mixed(seed, i)
}

fn short(seed: u32, i: u32) -> u32 {
    if i < 3 {
        return mixed(seed, i);
    }
    0
}

// Word i of the block that a seed stands for: some begin with the map mark or with its flipped form.
pub fn content(seed: u32, l: u32, i: u32) -> u32 {
    if seed == 0 {
        return 0;
    }
    match seed % 8 {
        1 => begun(seed, i, 827_149_398),
        2 => forged(seed, l, i),
        3 => begun(seed, i, 827_149_481),
        4 => short(seed, i),
        _ => mixed(seed, i),
    }
}

fn put_content(b: &mut [u32; board::SIZE], j: u32, seed: u32, l: u32) {
    for i in 0..128u32 {
        board::put_word(b, board::DATA, j, i, content(seed, l, i));
    }
}

// Adds a block to those of the call, with the bytes of a seed.
pub fn name_block(b: &mut [u32; board::SIZE], block: u32, seed: u32) {
    let j = cells::get(b, board::COUNT);
    let l = cells::get(b, board::BLOCK_COUNT);
    board::put(b, board::BLOCKS, j, block);
    board::put(b, cells::SEEDS, j, seed);
    put_content(b, j, seed, l);
    cells::set(b, board::COUNT, board::plus(j, 1));
}

fn settle_block(b: &mut [u32; board::SIZE], blocks: u32, seeds: u32, j: u32, drops: bool) {
    let block = board::get(b, blocks, j);
    let seed = board::get(b, seeds, j);
    if drops {
        board::put(b, cells::DISK, block, 0);
    } else {
        board::put(b, cells::DISK, block, seed);
    }
}

// So many blocks of those that begin at `blocks`, cells of the board, with their seeds.
fn settle_blocks(b: &mut [u32; board::SIZE], blocks: u32, seeds: u32, count: u32, drops: bool) {
    for j in 0..count {
        settle_block(b, blocks, seeds, j, drops);
    }
}

fn settle_single(b: &mut [u32; board::SIZE], drops: bool) {
    let count = cells::get(b, board::COUNT);
    settle_blocks(b, board::BLOCKS, cells::SEEDS, count, drops);
}

// How many blocks the first so many commits of a backlog name.
fn blocks_before(b: &[u32; board::SIZE], commits: u32) -> u32 {
    (0..commits).fold(0, |before, i| {
        board::plus(before, board::commit_word(b, i, 2))
    })
}

// A commit of a backlog, where it was accepted.
fn settle_commit(b: &mut [u32; board::SIZE], i: u32) {
    let before = blocks_before(b, i);
    let count = board::commit_word(b, i, 2);
    let drops = board::commit_word(b, i, 0) == 1;
    if board::answer_word(b, i, 0) == 0 {
        settle_blocks(
            b,
            board::plus(board::BACKLOG_BLOCKS, before),
            board::plus(cells::BACKLOG_SEEDS, before),
            count,
            drops,
        );
    }
}

fn settle_batch(b: &mut [u32; board::SIZE]) {
    let answered = cells::get(b, board::COMMITS_ANSWERED);
    for i in 0..answered {
        settle_commit(b, i);
    }
}

// What the plain disk sees of a call: an accepted write or drop, and those of a batch one after the other. After a format it is zeros.
fn settle(b: &mut [u32; board::SIZE]) {
    if board::is_accepted(b) {
        match board::call(b) {
            Call::Format => board::fill(b, cells::DISK, board::L_MOST, 0),
            Call::Write => settle_single(b, false),
            Call::Drop => settle_single(b, true),
            Call::Batch => settle_batch(b),
            Call::Read | Call::Park | Call::Recover => {}
        }
    }
}

// Whether a read's words are those of the plain disk.
fn is_out(b: &[u32; board::SIZE]) -> bool {
    let seed = board::get(b, cells::DISK, board::get(b, board::BLOCKS, 0));
    let l = cells::get(b, board::BLOCK_COUNT);
    (0..128u32).all(|i| board::get(b, board::OUT, i) == content(seed, l, i))
}

fn hold_read(b: &mut [u32; board::SIZE]) {
    if board::call(b) == Call::Read && board::is_accepted(b) {
        let same = is_out(b);
        cells::hold(b, same, Difference::PlainDisk);
    }
}

// The plain disk after a call, and the bytes of a read held to it.
pub fn settle_call(b: &mut [u32; board::SIZE]) {
    settle(b);
    hold_read(b);
}
