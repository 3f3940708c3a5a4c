// The walk: the log from its tail, as the park record names it.
use crate::scanned;
use reference_board::kinds::Way;
use reference_board::{board, consistent, valid};

// Whether there is a park record whose tail is signed, closing and has its number.
fn starts(b: &[u32; board::SIZE], n: u32, l: u32) -> bool {
    let tail = board::word(b, board::IMAGE, 0, 3);
    valid::is_park(b)
        && valid::is_place(tail, n)
        && valid::is_closing(b, tail, n, l)
        && valid::number_of(b, tail) == board::word(b, board::IMAGE, 0, 2)
}

fn is_done(b: &[u32; board::SIZE], q: u32) -> bool {
    board::get(b, board::DONE, q) != 0
}

// The sector that waits for piece q. It is never 0.
fn waiting_for(b: &[u32; board::SIZE], q: u32) -> Option<u32> {
    match board::get(b, board::WAITING, q) {
        0 => None,
        k => Some(k),
    }
}

fn waits(b: &[u32; board::SIZE], q: u32) -> bool {
    !is_done(b, q) && waiting_for(b, q).is_some()
}

// The piece whose waiting sector is the newest.
fn newest_waiting(b: &[u32; board::SIZE], p: u32) -> Option<u32> {
    (0..p)
        .filter(|q| waits(b, *q))
        .reduce(|best, q| newer(b, best, q))
}

fn waiting_number(b: &[u32; board::SIZE], q: u32) -> u32 {
    valid::number_of(b, board::get(b, board::WAITING, q))
}

fn newer(b: &[u32; board::SIZE], best: u32, q: u32) -> u32 {
    if waiting_number(b, q) > waiting_number(b, best) {
        return q;
    }
    best
}

// Whether a target counts for the sector that holds the branch: signed, lower in number, and of a piece not done.
fn counts(b: &[u32; board::SIZE], target: u32, holder: u32, n: u32, l: u32) -> bool {
    valid::is_valid(b, target, n, l)
        && valid::number_of(b, target) < valid::number_of(b, holder)
        && !is_done(b, valid::piece_of(b, target))
}

// For a piece the highest waits, of equal ones the first read.
fn wait(b: &mut [u32; board::SIZE], target: u32) {
    let q = valid::piece_of(b, target);
    let number = valid::number_of(b, target);
    if waiting_for(b, q).is_none_or(|k| number > valid::number_of(b, k)) {
        board::put(b, board::WAITING, q, target);
    }
}

fn read_branch(b: &mut [u32; board::SIZE], holder: u32, i: u32, n: u32, l: u32) {
    if i < board::word(b, board::IMAGE, holder, 6) {
        let target = board::word(b, board::IMAGE, holder, board::plus(8, i));
        if counts(b, target, holder, n, l) {
            wait(b, target);
        }
    }
}

// A loop of its own, as for a commit's branches: its step is another.
fn read_branches(b: &mut [u32; board::SIZE], holder: u32, n: u32, l: u32) {
    for i in 0..24u32 {
        read_branch(b, holder, i, n, l);
    }
}

// Takes the newest waiting sector, where one waits.
fn step(b: &mut [u32; board::SIZE], n: u32, l: u32) {
    let p = board::pieces(l);
    if let Some(q) = newest_waiting(b, p) {
        let k = board::get(b, board::WAITING, q);
        board::put(b, board::DONE, q, 1);
        scanned::take(b, k, q, l);
        read_branches(b, k, n, l);
    }
}

fn steps(b: &mut [u32; board::SIZE], n: u32, l: u32) {
    let p = board::pieces(l);
    for _ in 0..p {
        step(b, n, l);
    }
}

fn all_done(b: &[u32; board::SIZE], p: u32) -> bool {
    (0..p).all(|q| is_done(b, q))
}

// 2, and the branches of the live sectors.
fn sectors_read(b: &[u32; board::SIZE], p: u32) -> u32 {
    (0..p).fold(2, |read, q| {
        let k = consistent::place_at(b, board::MADE, q);
        board::plus(read, board::word(b, board::IMAGE, k, 6))
    })
}

// Walks from the tail, and makes the tables of what it takes.
fn walk_from(b: &mut [u32; board::SIZE], tail: u32, n: u32, l: u32) {
    board::fill(b, board::MADE, board::TABLE_WORDS, 0);
    board::fill(b, board::WAITING, board::P_MOST, 0);
    board::fill(b, board::DONE, board::P_MOST, 0);
    wait(b, tail);
    steps(b, n, l);
}

// Whether all pieces are done and give consistent tables.
fn is_complete(b: &mut [u32; board::SIZE], tail: u32, n: u32, l: u32) -> bool {
    if !all_done(b, board::pieces(l)) {
        return false;
    }
    let number = valid::number_of(b, tail);
    consistent::put_used(b, board::MADE, n, l);
    consistent::is_consistent(b, board::MADE, n, l, tail, number)
}

// Whether the walk answers. Its tables are made then, and its stores listed.
pub fn walk(b: &mut [u32; board::SIZE], n: u32, l: u32) -> bool {
    if !starts(b, n, l) {
        return false;
    }
    let tail = board::word(b, board::IMAGE, 0, 3);
    walk_from(b, tail, n, l);
    if !is_complete(b, tail, n, l) {
        return false;
    }
    let read = sectors_read(b, board::pieces(l));
    scanned::list_park_sector(b);
    scanned::put_found(b, tail, Way::Walk, read);
    true
}
