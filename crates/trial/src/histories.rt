// Random histories: calls with random arguments and allowances, each held to the second implementation and to the plain disk.
use crate::cuts;
use reference_board::board;
use trial_board::stand::Volume;
use trial_board::{cells, chance, stand};
use trial_choice::choice;

// The greatest number with which a commit is still accepted, and how far below it, at most, the numbers of a volume begin that end soon.
const LAST_NUMBER: u32 = 4_294_967_039;

const FEW: u32 = 16;

// Every `often`-th call is cut at each of its stores, on a copy.
fn cut_some(b: &mut [u32; board::SIZE], often: u32) {
    let spread = cells::get(b, cells::SPREAD);
    if chance::below(b, often) == 0 {
        cuts::cut_everywhere(b, spread);
    }
}

// The call that stands on the board, the plain disk after it, and a recovery of what it leaves.
fn carry_on(b: &mut [u32; board::SIZE]) {
    let spread = cells::get(b, cells::SPREAD);
    cuts::perform(b);
    trial_disk::settle_call(b);
    cuts::after(b, spread);
}

fn step(b: &mut [u32; board::SIZE], often: u32) {
    choice::choose(b);
    cut_some(b, often);
    choice::choose_stores(b);
    carry_on(b);
}

fn steps(b: &mut [u32; board::SIZE], calls: u32, often: u32) {
    for _ in 0..calls {
        step(b, often);
    }
}

// A history of so many calls on a volume.
pub fn run(b: &mut [u32; board::SIZE], volume: Volume, spread: u32, calls: u32, often: u32) {
    cells::set(b, cells::SPREAD, spread);
    cuts::format(b, volume);
    steps(b, calls, often);
    cuts::after(b, 0);
}

// Formats the volume, and raises its numbers to the last or just below it.
fn format_late(b: &mut [u32; board::SIZE], volume: Volume) {
    stand::stand_format(b, volume);
    cuts::perform(b);
    trial_disk::settle_call(b);
    let few = chance::below(b, FEW);
    let number = board::plus(cells::get(b, board::NUMBER), few);
    stand::raise_numbers(b, board::minus(LAST_NUMBER, number));
}

fn live_late(b: &mut [u32; board::SIZE], volume: Volume, often: u32) {
    format_late(b, volume);
    steps(b, 8, often);
}

// So many histories of a volume whose numbers end soon: 7 in the middle of a batch too.
pub fn run_late(b: &mut [u32; board::SIZE], volume: Volume, spread: u32, times: u32, often: u32) {
    cells::set(b, cells::SPREAD, spread);
    for _ in 0..times {
        live_late(b, volume, often);
    }
}
