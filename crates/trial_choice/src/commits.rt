// Random writes and drops: their blocks and their heads.
use reference_board::board;
use reference_board::kinds::Call;
use trial_board::{cells, chance};

// Where this many blocks may be dropped at once, the history is mostly of drops.
pub const MANY: u32 = 16;

// Goes on by so many of the blocks that are written.
fn go_on(b: &mut [u32; board::SIZE], steps: u32) {
    let spread = cells::get(b, cells::SPREAD);
    cells::add(b, cells::CURSOR, spread.wrapping_mul(steps));
}

// Names the next block of a write or a drop, unless the blocks are used up.
fn choose_block(b: &mut [u32; board::SIZE], step: u32) {
    let block = cells::get(b, cells::CURSOR);
    if block < cells::get(b, board::BLOCK_COUNT) {
        let seed = chance::word(b);
        trial_disk::name_block(b, block, board::plus(seed / 2, 1));
        let on = chance::below(b, step);
        go_on(b, board::plus(on, 1));
    }
}

// Counts and the most, here and below, are of blocks.
fn choose_more(b: &mut [u32; board::SIZE], count: u32, step: u32) {
    for _ in 0..count {
        choose_block(b, step);
    }
}

// The last of the blocks that are written, up to this one.
fn at_spread(block: u32, spread: u32) -> u32 {
    if spread == 0 {
        return block;
    }
    board::minus(block, block % spread)
}

// Names 1 to `most` blocks, ascending, from a random one on; each time 1 to `step` further.
pub fn choose_blocks(b: &mut [u32; board::SIZE], most: u32, step: u32) {
    let block = chance::below(b, cells::get(b, board::BLOCK_COUNT));
    let more = chance::below(b, most);
    let first = at_spread(block, cells::get(b, cells::SPREAD));
    cells::set(b, cells::CURSOR, first);
    cells::set(b, board::COUNT, 0);
    choose_more(b, board::plus(more, 1), step);
}

// Of many sectors every fourth head is one of the last, so that commits wrap there too.
fn head_for(x: u32, n: u32) -> u32 {
    if n < 512 || x % 4 != 0 {
        return x;
    }
    n - 1 - x / 4 % 16
}

fn choose_head(b: &mut [u32; board::SIZE]) {
    let n = cells::get(b, board::IMAGE_LENGTH) / 512;
    let x = chance::below(b, n);
    cells::set(b, board::HEAD, head_for(x, n));
}

// A write of 1 to `most` blocks.
pub fn choose_write_of(b: &mut [u32; board::SIZE], most: u32) {
    choose_blocks(b, most, 3);
    choose_head(b);
    let bytes = board::bytes(cells::get(b, board::COUNT));
    cells::set(b, board::BYTES_LENGTH, bytes);
    board::put_call(b, Call::Write);
}

fn choose_next(b: &mut [u32; board::SIZE], step: u32) {
    let seed = chance::word(b);
    trial_disk::name_block(b, cells::get(b, cells::CURSOR), seed);
    go_on(b, step);
}

// Names so many blocks, each `step` after the one before.
fn choose_row(b: &mut [u32; board::SIZE], first: u32, count: u32, step: u32) {
    cells::set(b, cells::CURSOR, first);
    cells::set(b, board::COUNT, 0);
    for _ in 0..count {
        choose_next(b, step);
    }
}

// A drop of many blocks: at random, all, or every second. After all of them each live sector leads to the one before, and with every second one
// written anew no other leads to those that remain.
fn choose_many(b: &mut [u32; board::SIZE], most: u32) {
    let second = cells::get(b, cells::SPREAD);
    match chance::below(b, 3) {
        0 => choose_blocks(b, most, 2),
        1 => choose_row(b, 0, most, 1),
        _ => choose_row(b, second, most / 2, 2),
    }
}

fn choose_dropped(b: &mut [u32; board::SIZE], most: u32) {
    if most < MANY {
        choose_blocks(b, most, 2);
    } else {
        choose_many(b, most);
    }
}

// A drop of 1 to `most` blocks.
pub fn choose_drop_of(b: &mut [u32; board::SIZE], most: u32) {
    choose_dropped(b, most);
    choose_head(b);
    cells::set(b, board::BYTES_LENGTH, 0);
    board::put_call(b, Call::Drop);
}

// A write and a drop of as many blocks as the history's may have.
pub fn choose_write(b: &mut [u32; board::SIZE]) {
    let most = cells::get(b, cells::MOST_WRITTEN);
    choose_write_of(b, most);
}

pub fn choose_drop(b: &mut [u32; board::SIZE]) {
    let most = cells::get(b, cells::MOST_DROPPED);
    choose_drop_of(b, most);
}

// The most blocks in a write and in a drop.
pub fn limit(b: &mut [u32; board::SIZE], written: u32, dropped: u32) {
    cells::set(b, cells::MOST_WRITTEN, written);
    cells::set(b, cells::MOST_DROPPED, dropped);
}
