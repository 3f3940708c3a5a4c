// The branches of a commit's first member, from the remaining live sectors: those of pieces that are not touched.
use reference_board::{board, consistent};

pub fn is_touched(b: &[u32; board::SIZE], q: u32) -> bool {
    board::get(b, board::TOUCHED, q) != 0
}

fn is_reached(b: &[u32; board::SIZE], q: u32) -> bool {
    board::get(b, board::REACHED, q) != 0
}

// The remaining piece that lives in sector k.
fn remaining_at(b: &[u32; board::SIZE], k: u32, p: u32) -> Option<u32> {
    (0..p).find(|q| !is_touched(b, *q) && consistent::place_at(b, board::LENT, *q) == k)
}

// Follows one branch of piece q: its target is reached where it is a remaining sector with a lower number.
fn follow(b: &mut [u32; board::SIZE], q: u32, target: u32, p: u32) {
    if let Some(r) = remaining_at(b, target, p) {
        if consistent::number_at(b, board::LENT, r) < consistent::number_at(b, board::LENT, q) {
            board::put(b, board::REACHED, r, 1);
        }
    }
}

fn follow_branch(b: &mut [u32; board::SIZE], q: u32, k: u32, i: u32, p: u32) {
    if i < board::word(b, board::IMAGE, k, 6) {
        let target = board::word(b, board::IMAGE, k, board::plus(8, i));
        follow(b, q, target, p);
    }
}

// A walk reads branches in the same loop, but of another step: it is written again there.
fn follow_all(b: &mut [u32; board::SIZE], q: u32, k: u32, p: u32) {
    for i in 0..24u32 {
        follow_branch(b, q, k, i, p);
    }
}

fn spread_from(b: &mut [u32; board::SIZE], q: u32, p: u32) {
    if !is_touched(b, q) && is_reached(b, q) {
        let k = consistent::place_at(b, board::LENT, q);
        follow_all(b, q, k, p);
    }
}

fn spread_once(b: &mut [u32; board::SIZE], p: u32) {
    for q in 0..p {
        spread_from(b, q, p);
    }
}

fn reached_count(b: &[u32; board::SIZE], p: u32) -> usize {
    (0..p).filter(|q| is_reached(b, *q)).count()
}

// One round, which says whether something more was reached.
fn spread_more(b: &mut [u32; board::SIZE], p: u32) -> bool {
    let before = reached_count(b, p);
    spread_once(b, p);
    reached_count(b, p) != before
}

// Follows branches until nothing more is reached: at most p rounds.
fn spread(b: &mut [u32; board::SIZE], p: u32) {
    for _ in 0..p {
        if !spread_more(b, p) {
            return;
        }
    }
}

fn is_judged(b: &[u32; board::SIZE], q: u32) -> bool {
    board::get(b, board::JUDGED, q) != 0
}

// The newest remaining piece that is not judged yet.
fn newest(b: &[u32; board::SIZE], p: u32) -> Option<u32> {
    (0..p)
        .filter(|q| !is_touched(b, *q) && !is_judged(b, *q))
        .reduce(|best, q| newer(b, best, q))
}

fn newer(b: &[u32; board::SIZE], best: u32, q: u32) -> u32 {
    if consistent::number_at(b, board::LENT, q) > consistent::number_at(b, board::LENT, best) {
        return q;
    }
    best
}

fn list_piece(b: &mut [u32; board::SIZE], q: u32, p: u32) {
    let count = board::get(b, board::BRANCH_COUNT, 0);
    let place = consistent::place_at(b, board::LENT, q);
    board::put(b, board::BRANCHES, count, place);
    board::put(b, board::BRANCH_COUNT, 0, board::plus(count, 1));
    board::put(b, board::REACHED, q, 1);
    spread(b, p);
}

// Judges the newest remaining piece: it is listed unless it is reached already.
fn judge(b: &mut [u32; board::SIZE], p: u32) {
    if let Some(q) = newest(b, p) {
        board::put(b, board::JUDGED, q, 1);
        if !is_reached(b, q) {
            list_piece(b, q, p);
        }
    }
}

fn judge_all(b: &mut [u32; board::SIZE], p: u32) {
    for _ in 0..p {
        judge(b, p);
    }
}

// A fold: every piece is written, and the first member has no branches.
fn fold(b: &mut [u32; board::SIZE], p: u32) {
    board::fill(b, board::TOUCHED, p, 1);
    board::put(b, board::BRANCH_COUNT, 0, 0);
}

// Lists the branches, newest to oldest.
pub fn choose(b: &mut [u32; board::SIZE], p: u32) {
    board::fill(b, board::JUDGED, board::P_MOST, 0);
    board::fill(b, board::REACHED, board::P_MOST, 0);
    board::put(b, board::BRANCH_COUNT, 0, 0);
    judge_all(b, p);
    if board::get(b, board::BRANCH_COUNT, 0) > 24 {
        fold(b, p);
    }
}
