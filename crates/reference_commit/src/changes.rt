// A commit: data and members are placed and listed, and the tables are made as they are after it.
use crate::branches;
use reference_board::{board, consistent, journal, places};

fn touch(b: &mut [u32; board::SIZE], i: u32) {
    let block = board::get(b, board::BLOCKS, i);
    board::put(b, board::TOUCHED, block / 96, 1);
}

// A loop of its own for each step, here and below. Counts are of the blocks named.
fn touch_all(b: &mut [u32; board::SIZE], count: u32) {
    for i in 0..count {
        touch(b, i);
    }
}

// The entry of the i-th block of a write, whose data lie in sector k.
fn entry_for(b: &[u32; board::SIZE], k: u32, i: u32) -> u32 {
    if journal::begins_with_mark(b, i) {
        return board::plus(k, 2_147_483_648);
    }
    k
}

fn place_data(b: &mut [u32; board::SIZE], i: u32, n: u32) {
    let k = places::take(b, n);
    journal::list_data(b, k, i);
    let block = board::get(b, board::BLOCKS, i);
    let entry = entry_for(b, k, i);
    board::put(b, board::MADE, block, entry);
}

fn place_all_data(b: &mut [u32; board::SIZE], count: u32, n: u32) {
    for i in 0..count {
        place_data(b, i, n);
    }
}

fn empty(b: &mut [u32; board::SIZE], i: u32) {
    let block = board::get(b, board::BLOCKS, i);
    board::put(b, board::MADE, block, 0);
}

fn empty_all(b: &mut [u32; board::SIZE], count: u32) {
    for i in 0..count {
        empty(b, i);
    }
}

fn last_touched(b: &[u32; board::SIZE], p: u32) -> Option<u32> {
    (0..p).rev().find(|q| branches::is_touched(b, *q))
}

fn list_chosen(b: &mut [u32; board::SIZE], i: u32) {
    let branch = board::get(b, board::BRANCHES, i);
    journal::list_branch(b, branch);
}

fn list_all_chosen(b: &mut [u32; board::SIZE]) {
    let count = board::get(b, board::BRANCH_COUNT, 0);
    for i in 0..count {
        list_chosen(b, i);
    }
}

// The first member has the branches chosen, each other one a branch to the member before.
fn list_branches(b: &mut [u32; board::SIZE], members: u32) {
    if members == 0 {
        list_all_chosen(b);
    } else {
        let before = board::get(b, board::LAST_PLACE, 0);
        journal::list_branch(b, before);
    }
}

fn list_member(b: &mut [u32; board::SIZE], q: u32, k: u32, number: u32, closes: bool, l: u32) {
    let before = board::get(b, board::MEMBERS, 0);
    journal::list_map(b, k, number, q, closes, l);
    list_branches(b, before);
    journal::list_entries(b, q);
    journal::balance(b);
}

fn put_member(b: &mut [u32; board::SIZE], q: u32, k: u32, number: u32, member: u32) {
    board::put(b, board::plus(board::MADE, board::PLACES), q, k);
    board::put(b, board::plus(board::MADE, board::NUMBERS), q, number);
    board::put(b, board::LAST_PLACE, 0, k);
    board::put(b, board::MEMBERS, 0, member);
}

fn place_member(b: &mut [u32; board::SIZE], q: u32, n: u32, l: u32, closes: bool) {
    let member = board::plus(board::get(b, board::MEMBERS, 0), 1);
    let number = board::plus(board::get(b, board::NUMBER, 0), member);
    let k = places::take(b, n);
    list_member(b, q, k, number, closes, l);
    put_member(b, q, k, number, member);
}

fn place_piece(b: &mut [u32; board::SIZE], q: u32, n: u32, l: u32, closes: bool) {
    if branches::is_touched(b, q) {
        place_member(b, q, n, l, closes);
    }
}

// The last of the members closes the commit.
fn place_members(b: &mut [u32; board::SIZE], n: u32, l: u32) {
    let p = board::pieces(l);
    let last = last_touched(b, p);
    for q in 0..p {
        place_piece(b, q, n, l, last == Some(q));
    }
}

fn change_entries(b: &mut [u32; board::SIZE], n: u32, count: u32, writes: bool) {
    if writes {
        place_all_data(b, count, n);
    } else {
        empty_all(b, count);
    }
}

// Which pieces are written, and the first member's branches.
fn choose_members(b: &mut [u32; board::SIZE], count: u32, p: u32) {
    board::fill(b, board::TOUCHED, board::P_MOST, 0);
    touch_all(b, count);
    branches::choose(b, p);
}

// The search begins at the head; no member is made yet.
fn begin(b: &mut [u32; board::SIZE]) {
    let head = board::get(b, board::HEAD, 0);
    board::put(b, board::NEXT, 0, head);
    board::put(b, board::MEMBERS, 0, 0);
}

// Lists the stores of a write or a drop that nothing speaks against, and makes its tables beside those lent.
pub fn plan(b: &mut [u32; board::SIZE], n: u32, l: u32, writes: bool) {
    let count = board::get(b, board::COUNT, 0);
    choose_members(b, count, board::pieces(l));
    board::copy(b, board::MADE, board::LENT, board::TABLE_WORDS);
    begin(b);
    change_entries(b, n, count, writes);
    place_members(b, n, l);
    consistent::put_used(b, board::MADE, n, l);
}
