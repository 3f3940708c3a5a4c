// Calls by both implementations, and the power cut at each of their stores.
use crate::both;
use crate::copies::{count_on_copy, on_copy};
use reference_board::board;
use reference_board::kinds::Call;
use trial_board::difference::Difference;
use trial_board::stand::Volume;
use trial_board::{cells, counts, stand};
use trial_choice::settings;

// Performs the call that stands on the board, and holds one implementation to the other.
pub fn perform(b: &mut [u32; board::SIZE]) {
    let call = board::call(b);
    let found = both::both(b);
    cells::add(b, cells::CALLS, 1);
    cells::note(b, found);
    counts::count_answer(b);
    counts::count_kind(b, call);
}

// A recover of the image as it is, with so many stores. (No bytes go with it.)
pub fn recover(b: &mut [u32; board::SIZE], stores: u32) {
    stand::scramble(b);
    settings::give(b);
    board::put_call(b, Call::Recover);
    cells::set(b, board::BYTES_LENGTH, 0);
    cells::set(b, board::ALLOWED, stores);
    perform(b);
}

// A recovery with enough stores is accepted, and shows the plain disk.
fn recover_whole(b: &mut [u32; board::SIZE], spread: u32) {
    recover(b, stand::ENOUGH);
    let accepted = board::is_accepted(b);
    cells::hold(b, accepted, Difference::NotRecovered);
    trial_shown::compare(b, spread);
}

// That, of the image of a board that stays as it is. Its stores are answered.
pub fn after(b: &mut [u32; board::SIZE], spread: u32) -> u32 {
    count_on_copy(b, |c| {
        recover_whole(c, spread);
        cells::get(c, board::STORES)
    })
}

// A recovery that is cut after so many stores, and a whole one after it.
fn recover_cut(b: &mut [u32; board::SIZE], stores: u32, spread: u32) {
    count_on_copy(b, |c| {
        recover(c, stores);
        counts::hold_cut(c, stores);
        cells::add(c, cells::RECOVERY_CUTS, 1);
        recover_whole(c, spread);
    });
}

// Recoveries of an image: whole, and cut at each of their stores.
pub fn recover_everywhere(b: &mut [u32; board::SIZE], spread: u32) {
    let needed = after(b, spread);
    for j in 0..needed {
        recover_cut(b, j, spread);
    }
}

// The call cut after so many stores, and every recovery of what that leaves. Of a batch the plain disk has what was accepted before.
fn cut_once(b: &mut [u32; board::SIZE], stores: u32, spread: u32) {
    count_on_copy(b, |c| {
        cells::set(c, board::ALLOWED, stores);
        perform(c);
        counts::hold_cut(c, stores);
        trial_disk::settle_call(c);
        recover_everywhere(c, spread);
    });
}

// The stores that the call on the board needs; 0 where it is refused.
fn stores_needed(b: &[u32; board::SIZE]) -> u32 {
    on_copy(b, |c| {
        cells::set(c, board::ALLOWED, stand::ENOUGH);
        // Whether they agree is held when the call is made.
        let _ = both::both(c);
        cells::get(c, board::STORES)
    })
}

// The call that stands on the board, cut at each of its stores. A loop of its own: lent to one for all, a step would take as many lines.
fn cut_at_each(b: &mut [u32; board::SIZE], needed: u32, spread: u32) {
    for k in 0..needed {
        cut_once(b, k, spread);
    }
}

// The call with just the stores that it needs, and a recovery of what that leaves.
fn make_just(b: &mut [u32; board::SIZE], needed: u32, spread: u32) {
    count_on_copy(b, |c| {
        cells::set(c, board::ALLOWED, needed);
        perform(c);
        trial_disk::settle_call(c);
        after(c, spread);
    });
}

// Every cut of the call that stands on the board. A batch is also made with just enough stores: its last commit has none left over.
pub fn cut_everywhere(b: &mut [u32; board::SIZE], spread: u32) {
    let needed = stores_needed(b);
    cut_at_each(b, needed, spread);
    if board::call(b) == Call::Batch {
        make_just(b, needed, spread);
    }
}

// A format that is cut after so many stores.
fn cut_format(b: &mut [u32; board::SIZE], stores: u32) {
    cells::set(b, board::ALLOWED, stores);
    perform(b);
    counts::hold_cut(b, stores);
}

// (The count is of stores.)
fn cut_formats(b: &mut [u32; board::SIZE], count: u32) {
    for k in 0..count {
        cut_format(b, k);
    }
}

// A format of a volume: cut at each of its stores, then whole.
pub fn format(b: &mut [u32; board::SIZE], volume: Volume) {
    stand::stand_format(b, volume);
    let needed = stores_needed(b);
    cut_formats(b, needed);
    cells::set(b, board::ALLOWED, stand::ENOUGH);
    perform(b);
}
