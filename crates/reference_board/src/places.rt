// Placing: where the next sector of a commit goes. The drive is that of the state, whose settings were judged before.
use crate::{board, consistent};

// A free sector, and how long it is until it comes under the head.
#[derive(Clone, Copy, Default)]
struct Found {
    sector: u32,
    delay: u32,
}

fn per_track(b: &[u32; board::SIZE]) -> u32 {
    board::get(b, board::PER_TRACK, 0)
}

// The first sector of the track that k lies on.
fn track_start(k: u32, per_track: u32) -> u32 {
    if per_track == 0 {
        return 0;
    }
    board::minus(k, k % per_track)
}

// How far the track turns from one position until it has another under the head.
fn turn(from: u32, to: u32, per_track: u32) -> u32 {
    if to >= from {
        return to - from;
    }
    board::minus(board::plus(to, per_track), from)
}

// A position comes by first after `first` sector times, and then once a revolution: the first time that the head, which takes
// `switch` to another track, is there.
fn met(first: u32, per_track: u32, switch: u32) -> u32 {
    let mut wait = first;
    for revolution in 0..switch {
        if wait >= switch {
            return wait;
        }
        wait = board::plus(wait, per_track);
    }
    wait
}

// The delay from one sector, where the head stands, to another.
fn delay(b: &[u32; board::SIZE], from: u32, k: u32) -> u32 {
    let per_track = per_track(b);
    let here = track_start(from, per_track);
    let there = track_start(k, per_track);
    let first = turn(board::minus(from, here), board::minus(k, there), per_track);
    if here == there {
        return first;
    }
    met(first, per_track, board::get(b, board::SWITCH, 0))
}

fn is_free(b: &[u32; board::SIZE], k: u32) -> bool {
    consistent::bit_at(b, board::MADE, k) == 0
}

// The free sector of least delay. All are tried, in ascending order, so that of two that tie the lower stays.
fn nearest(b: &[u32; board::SIZE], from: u32, n: u32) -> Option<Found> {
    (1..n)
        .filter(|k| is_free(b, *k))
        .map(|k| Found {
            sector: k,
            delay: delay(b, from, k),
        })
        .min_by_key(|found| found.delay)
}

// Takes the next free sector, for the store that is listed next. It stays taken to the end of the commit, and nothing is freed before that.
pub fn take(b: &mut [u32; board::SIZE], n: u32) -> u32 {
    // A commit is turned back where there is no room for it, so there is one.
    let found = nearest(b, board::get(b, board::NEXT, 0), n).unwrap_or_default();
    let k = found.sector;
    let store = board::get(b, board::LISTED, 0);
    let next = after(k, per_track(b));
    board::put(b, board::LIST_DELAYS, store, found.delay);
    board::put(b, board::plus(board::MADE, board::USED), k, 1);
    board::put(b, board::NEXT, 0, next);
    k
}

// The sector one position after k, on its track: the one after the last is the track's first.
fn after(k: u32, per_track: u32) -> u32 {
    let start = track_start(k, per_track);
    let next = board::plus(k, 1);
    if board::minus(next, start) < per_track {
        return next;
    }
    start
}

// Whether a commit has the room that it needs: so many blocks (of the volume, not words of the board), and P.
pub fn has_room(b: &[u32; board::SIZE], n: u32, l: u32, count: u32) -> bool {
    consistent::free_count(b, board::LENT, n) >= count as usize + board::pieces(l) as usize
}
