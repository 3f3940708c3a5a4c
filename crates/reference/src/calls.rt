// The six single calls on the board.
use crate::refusals;
use reference_board::kinds::{Call, Phase, Refusal};
use reference_board::{board, consistent, journal};
use reference_commit::changes;
use reference_recovery::{scanned, walked};

// What a format or a recovery leaves in the state: the settings are those that it was given.
fn put_state(b: &mut [u32; board::SIZE], n: u32, l: u32, tail: u32, number: u32, phase: Phase) {
    board::put(b, board::STATE_N, 0, n);
    board::put(b, board::STATE_L, 0, l);
    board::put(b, board::TAIL, 0, tail);
    board::put(b, board::NUMBER, 0, number);
    board::put_phase(b, phase);
    board::copy(
        b,
        board::PER_TRACK,
        board::GIVEN_PER_TRACK,
        board::SETTING_WORDS,
    );
}

// A format or a recovery that came to no good end: N, L and the settings are known, the tables are zero.
fn lose(b: &mut [u32; board::SIZE], n: u32, l: u32) {
    board::fill(b, board::LENT, board::TABLE_WORDS, 0);
    put_state(b, n, l, 0, 0, Phase::Cut);
}

// The tables made are those lent from here on.
fn keep_made(b: &mut [u32; board::SIZE]) {
    board::copy(b, board::LENT, board::MADE, board::TABLE_WORDS);
}

fn list_sectors(b: &mut [u32; board::SIZE], n: u32) {
    for k in 0..n {
        journal::list_blank(b, k);
    }
}

// Piece q of a format, in the sector after it and with that number; piece q - 1 lies in sector q.
fn list_piece(b: &mut [u32; board::SIZE], q: u32, p: u32, l: u32) {
    let k = board::plus(q, 1);
    journal::list_map(b, k, k, q, k == p, l);
    if q > 0 {
        journal::list_branch(b, q);
    }
}

fn format_piece(b: &mut [u32; board::SIZE], q: u32, p: u32, l: u32) {
    let k = board::plus(q, 1);
    list_piece(b, q, p, l);
    journal::balance(b);
    board::put(b, board::plus(board::MADE, board::PLACES), q, k);
    board::put(b, board::plus(board::MADE, board::NUMBERS), q, k);
}

fn format_pieces(b: &mut [u32; board::SIZE], p: u32, l: u32) {
    for q in 0..p {
        format_piece(b, q, p, l);
    }
}

fn format(b: &mut [u32; board::SIZE]) {
    let n = board::get(b, board::IMAGE_LENGTH, 0) / 512;
    let l = board::get(b, board::BLOCK_COUNT, 0);
    let p = board::pieces(l);
    board::fill(b, board::MADE, board::TABLE_WORDS, 0);
    list_sectors(b, n);
    format_pieces(b, p, l);
    consistent::put_used(b, board::MADE, n, l);
    if journal::perform(b) {
        keep_made(b);
        put_state(b, n, l, p, p, Phase::Running);
    } else {
        lose(b, n, l);
    }
}

fn cut(b: &mut [u32; board::SIZE]) {
    board::put_phase(b, Phase::Cut);
}

// The tail and the number after a commit: its last member's.
fn put_tail(b: &mut [u32; board::SIZE]) {
    let tail = board::get(b, board::LAST_PLACE, 0);
    let number = board::plus(
        board::get(b, board::NUMBER, 0),
        board::get(b, board::MEMBERS, 0),
    );
    board::put(b, board::TAIL, 0, tail);
    board::put(b, board::NUMBER, 0, number);
}

fn commit(b: &mut [u32; board::SIZE], writes: bool) {
    let n = board::get(b, board::STATE_N, 0);
    let l = board::get(b, board::STATE_L, 0);
    changes::plan(b, n, l, writes);
    let whole = journal::perform(b);
    journal::put_skipped(b);
    if whole {
        keep_made(b);
        put_tail(b);
    } else {
        cut(b);
    }
}

// A stored block that was flipped has its first byte complemented.
fn restored(x: u32) -> u32 {
    x - x % 256 + (255 - x % 256)
}

fn restore(b: &mut [u32; board::SIZE], entry: u32) {
    if entry >= 2_147_483_648 {
        let first = board::get(b, board::OUT, 0);
        board::put(b, board::OUT, 0, restored(first));
    }
}

fn read(b: &mut [u32; board::SIZE]) {
    let block = board::get(b, board::BLOCKS, 0);
    let entry = board::get(b, board::LENT, block);
    if entry == 0 {
        board::fill(b, board::OUT, 128, 0);
    } else {
        board::copy_sector(b, board::OUT, 0, board::IMAGE, consistent::sector_of(entry));
        restore(b, entry);
    }
}

fn park(b: &mut [u32; board::SIZE]) {
    let number = board::get(b, board::NUMBER, 0);
    let tail = board::get(b, board::TAIL, 0);
    journal::list_park(b, number, tail);
    if journal::perform(b) {
        board::put_phase(b, Phase::Parked);
    } else {
        cut(b);
    }
}

// The stores of a recovery that found its log.
fn finish(b: &mut [u32; board::SIZE], n: u32, l: u32) {
    let tail = board::get(b, board::FOUND_TAIL, 0);
    let number = board::get(b, board::FOUND_NUMBER, 0);
    if journal::perform(b) {
        keep_made(b);
        put_state(b, n, l, tail, number, Phase::Running);
    } else {
        forget_way(b);
        lose(b, n, l);
    }
}

// Way and sectors read are given on acceptance only.
fn forget_way(b: &mut [u32; board::SIZE]) {
    board::put(b, board::WAY, 0, 0);
    board::put(b, board::READS, 0, 0);
}

// The walk where it answers, otherwise the scan.
fn find(b: &mut [u32; board::SIZE], n: u32, l: u32) -> Result<(), Refusal> {
    if walked::walk(b, n, l) {
        return Ok(());
    }
    scanned::scan(b, n, l)
}

fn recover(b: &mut [u32; board::SIZE]) {
    let n = board::get(b, board::IMAGE_LENGTH, 0) / 512;
    let l = board::get(b, board::BLOCK_COUNT, 0);
    match find(b, n, l) {
        Ok(()) => finish(b, n, l),
        Err(refusal) => {
            board::refuse(b, refusal);
            lose(b, n, l);
        }
    }
}

// A batch is no single call (`backlog`).
fn carry_out(b: &mut [u32; board::SIZE], call: Call) {
    match call {
        Call::Format => format(b),
        Call::Write => commit(b, true),
        Call::Drop => commit(b, false),
        Call::Read => read(b),
        Call::Park => park(b),
        Call::Recover => recover(b),
        Call::Batch => {}
    }
}

// A match: a function for a call would be chosen by the same one.
fn check(b: &mut [u32; board::SIZE], call: Call) -> Result<(), Refusal> {
    match call {
        Call::Format | Call::Recover => refusals::of_image(b),
        Call::Write => refusals::of_commit(b, true),
        Call::Drop => refusals::of_commit(b, false),
        Call::Read => refusals::of_read(b),
        Call::Park => refusals::of_park(b),
        Call::Batch => refusals::of_tables(b),
    }
}

// Performs the single call that stands on the board, and leaves its answer there.
pub fn perform(b: &mut [u32; board::SIZE]) {
    let call = board::call(b);
    board::fill(b, board::ANSWER, board::ANSWER_WORDS, 0);
    board::put(b, board::LISTED, 0, 0);
    board::put(b, board::FILLED, 0, 0);
    match check(b, call) {
        Ok(()) => carry_out(b, call),
        Err(refusal) => board::refuse(b, refusal),
    }
}
