// What is counted of a call, once both implementations have performed it.
use crate::cells;
use crate::difference::Difference;
use reference_board::board;
use reference_board::kinds::{Call, Refusal, Way};

// Whether the commit that was planned last writes every piece, with fewer blocks than pieces.
fn is_fold(b: &[u32; board::SIZE]) -> bool {
    let p = board::pieces(cells::get(b, board::STATE_L));
    cells::get(b, board::MEMBERS) == p && cells::get(b, board::COUNT) < p
}

fn count_fold(b: &mut [u32; board::SIZE], cell: u32) {
    if is_fold(b) {
        cells::add(b, cell, 1);
    }
}

// A search goes around where the tail comes to lie below the head.
fn count_wrap(b: &mut [u32; board::SIZE]) {
    if cells::get(b, board::TAIL) < cells::get(b, board::HEAD) {
        cells::add(b, cells::WRAPS, 1);
    }
}

fn track_of(k: u32, per_track: u32) -> u32 {
    if per_track == 0 {
        return 0;
    }
    k / per_track
}

fn count_switch(b: &mut [u32; board::SIZE]) {
    let per_track = cells::get(b, board::PER_TRACK);
    let tail = track_of(cells::get(b, board::TAIL), per_track);
    if tail != track_of(cells::get(b, board::HEAD), per_track) {
        cells::add(b, cells::SWITCHES, 1);
    }
}

fn count_move(b: &mut [u32; board::SIZE]) {
    if cells::get(b, board::TRACKS) == 1 {
        count_wrap(b);
    } else {
        count_switch(b);
    }
}

fn count_accepted(b: &mut [u32; board::SIZE]) {
    count_fold(b, cells::FOLDS);
    count_move(b);
}

fn count_commit(b: &mut [u32; board::SIZE]) {
    if board::is_accepted(b) {
        count_accepted(b);
    } else if cells::get(b, board::ANSWER) == Refusal::PowerCut as u32 {
        count_fold(b, cells::FOLD_CUTS);
    }
}

fn count_way(b: &mut [u32; board::SIZE]) {
    if cells::get(b, board::WAY) == Way::Walk as u32 {
        cells::add(b, cells::WALKS, 1);
    }
}

fn count_in_batch(b: &mut [u32; board::SIZE], i: u32) {
    let answer = board::answer_word(b, i, 0);
    cells::add_one(b, cells::COMMITS_ANSWERED, answer);
    if i > 0 {
        cells::add_one(b, cells::LATER_ANSWERED, answer);
    }
}

// A batch, and each of its commits that was answered.
fn count_batch(b: &mut [u32; board::SIZE]) {
    let answered = cells::get(b, board::COMMITS_ANSWERED);
    cells::add(b, cells::BATCHES, 1);
    for i in 0..answered {
        count_in_batch(b, i);
    }
}

pub fn count_kind(b: &mut [u32; board::SIZE], call: Call) {
    match call {
        Call::Write | Call::Drop => count_commit(b),
        Call::Recover => count_way(b),
        Call::Batch => count_batch(b),
        Call::Format | Call::Read | Call::Park => {}
    }
}

pub fn count_answer(b: &mut [u32; board::SIZE]) {
    let answer = cells::get(b, board::ANSWER);
    cells::add_one(b, cells::ANSWERED, answer);
}

// The last of the answers of a batch that was not refused as a whole.
fn last_answer(b: &[u32; board::SIZE]) -> u32 {
    let answered = cells::get(b, board::COMMITS_ANSWERED);
    board::answer_word(b, board::minus(answered, 1), 0)
}

// What a call answered to its last commit, or as a whole.
fn end_of(b: &[u32; board::SIZE]) -> u32 {
    if board::call(b) == Call::Batch {
        return last_answer(b);
    }
    cells::get(b, board::ANSWER)
}

// Holds a cut call to its answer: 10, and exactly the stores allowed.
pub fn hold_cut(b: &mut [u32; board::SIZE], stores: u32) {
    let answered = end_of(b) == Refusal::PowerCut as u32;
    let made = cells::get(b, board::STORES) == stores;
    cells::hold(b, answered, Difference::CutAnswer);
    cells::hold(b, made, Difference::CutAnswer);
    cells::add(b, cells::CUTS, 1);
}
