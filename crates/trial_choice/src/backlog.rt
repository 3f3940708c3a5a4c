// Random backlogs: how many commits, of which kind, right ones and wrong ones.
use crate::commits;
use reference_board::board;
use reference_board::kinds::Call;
use trial_board::{backlog, cells, chance};

fn less_one(b: &mut [u32; board::SIZE], cell: u32) {
    cells::add(b, cell, 4_294_967_295);
}

// A block that the volume does not have comes last.
fn name_past(b: &mut [u32; board::SIZE]) {
    let last = board::minus(cells::get(b, board::COUNT), 1);
    let l = cells::get(b, board::BLOCK_COUNT);
    board::put(b, board::BLOCKS, last, l);
}

// The first block is named again, with bytes of its own where the commit is a write.
fn name_twice(b: &mut [u32; board::SIZE]) {
    let block = cells::get(b, board::BLOCKS);
    trial_disk::name_block(b, block, 1);
    if board::call(b) == Call::Write {
        cells::add(b, board::BYTES_LENGTH, 512);
    }
}

fn name_none(b: &mut [u32; board::SIZE]) {
    cells::set(b, board::COUNT, 0);
    cells::set(b, board::BYTES_LENGTH, 0);
}

fn put_head_past(b: &mut [u32; board::SIZE]) {
    let n = cells::get(b, board::IMAGE_LENGTH) / 512;
    cells::set(b, board::HEAD, n);
}

// A kind that is neither a write nor a drop, whatever its bytes.
fn put_kind(b: &mut [u32; board::SIZE], call: Call) {
    board::put_call(b, call);
    cells::add(b, board::BYTES_LENGTH, 1);
}

// Makes the commit that stands on the board wrong: the first two are 2, the others 3.
fn spoil(b: &mut [u32; board::SIZE]) {
    match chance::below(b, 8) {
        0 => cells::add(b, board::BYTES_LENGTH, 1),
        1 => cells::add(b, board::BYTES_LENGTH, 512),
        2 => name_past(b),
        3 => name_twice(b),
        4 => name_none(b),
        5 => put_head_past(b),
        6 => put_kind(b, Call::Read),
        _ => put_kind(b, Call::Format),
    }
}

// Every twelfth commit is a wrong one.
fn spoil_some(b: &mut [u32; board::SIZE]) {
    if chance::below(b, 12) == 0 {
        spoil(b);
    }
}

fn choose_kind(b: &mut [u32; board::SIZE]) {
    if chance::below(b, 2) == 0 {
        commits::choose_write(b);
    } else {
        commits::choose_drop(b);
    }
}

fn choose_usual(b: &mut [u32; board::SIZE]) {
    choose_kind(b);
    spoil_some(b);
}

// A drop of one block or two, or at times a write, so that many of them have room.
fn choose_small(b: &mut [u32; board::SIZE]) {
    if chance::below(b, 4) == 0 {
        commits::choose_write_of(b, 2);
    } else {
        commits::choose_drop_of(b, 2);
    }
}

fn choose_commit(b: &mut [u32; board::SIZE], small: bool) {
    if small {
        choose_small(b);
    } else {
        choose_usual(b);
    }
}

// The call that stands on the board says the kind: the one before its number, so that a write is 0 and a drop 1.
fn add(b: &mut [u32; board::SIZE], small: bool) {
    choose_commit(b, small);
    let kind = board::minus(cells::get(b, board::CALL), 1);
    backlog::add(b, kind);
}

fn add_more(b: &mut [u32; board::SIZE], commits: u32, small: bool) {
    for _ in 0..commits {
        add(b, small);
    }
}

fn add_few(b: &mut [u32; board::SIZE]) {
    let more = chance::below(b, 4);
    add_more(b, board::plus(more, 1), false);
}

// None, just as many as may be, one too many, or mostly a few.
fn add_commits(b: &mut [u32; board::SIZE]) {
    match chance::below(b, 32) {
        0 => {}
        1 => add_more(b, 32, true),
        2 => add_more(b, 33, true),
        _ => add_few(b),
    }
}

fn change_count(b: &mut [u32; board::SIZE], place: u32) {
    let count = board::commit_word(b, 0, place);
    board::put_commit_word(b, 0, place, board::plus(count, 1));
}

// Makes a length wrong, or a count that has to add up to one.
fn spoil_length(b: &mut [u32; board::SIZE]) {
    match chance::below(b, 8) {
        0 => cells::add(b, board::COMMITS_LENGTH, 1),
        1 => less_one(b, board::COMMITS_LENGTH),
        2 => cells::add(b, board::ANSWERS_LENGTH, 1),
        3 => less_one(b, board::ANSWERS_LENGTH),
        4 => cells::add(b, board::BACKLOG_COUNT, 1),
        5 => cells::add(b, board::BACKLOG_BYTES, 1),
        6 => change_count(b, 2),
        _ => change_count(b, 3),
    }
}

// Every sixteenth backlog that has commits has a wrong length.
fn spoil_lengths(b: &mut [u32; board::SIZE]) {
    if cells::get(b, board::COMMITS_LENGTH) > 0 && chance::below(b, 16) == 0 {
        spoil_length(b);
    }
}

// Stands a random batch on the board.
pub fn choose(b: &mut [u32; board::SIZE]) {
    backlog::clear(b);
    add_commits(b);
    spoil_lengths(b);
    let mark = chance::word(b);
    backlog::stand(b, mark);
}
