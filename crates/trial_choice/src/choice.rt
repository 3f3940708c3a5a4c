// Random calls: which one, and its stores.
use crate::{backlog, commits, settings};
use reference_board::board;
use reference_board::kinds::{Call, Phase};
use trial_board::{cells, chance, stand};

fn choose_read(b: &mut [u32; board::SIZE]) {
    commits::choose_blocks(b, 1, 1);
    cells::set(b, board::BYTES_LENGTH, 512);
    board::put_call(b, Call::Read);
}

// A park or a recover.
fn choose_plain(b: &mut [u32; board::SIZE], call: Call) {
    cells::set(b, board::COUNT, 0);
    cells::set(b, board::BYTES_LENGTH, 0);
    board::put_call(b, call);
}

fn choose_recover(b: &mut [u32; board::SIZE]) {
    settings::give_any(b);
    choose_plain(b, Call::Recover);
}

fn choose_usual(b: &mut [u32; board::SIZE]) {
    match chance::below(b, 18) {
        0..=7 => commits::choose_write(b),
        8..=11 => commits::choose_drop(b),
        12 => choose_read(b),
        13 => choose_recover(b),
        14..=15 => choose_plain(b, Call::Park),
        _ => backlog::choose(b),
    }
}

fn choose_mostly_drops(b: &mut [u32; board::SIZE]) {
    match chance::below(b, 18) {
        0..=2 => commits::choose_write(b),
        3 => choose_read(b),
        4 => choose_recover(b),
        5 => choose_plain(b, Call::Park),
        6..=7 => backlog::choose(b),
        _ => commits::choose_drop(b),
    }
}

fn choose_running(b: &mut [u32; board::SIZE]) {
    if cells::get(b, cells::MOST_DROPPED) < commits::MANY {
        choose_usual(b);
    } else {
        choose_mostly_drops(b);
    }
}

fn choose_stopped(b: &mut [u32; board::SIZE]) {
    match chance::below(b, 9) {
        0 => commits::choose_write(b),
        1 => commits::choose_drop(b),
        2 => choose_read(b),
        3 => choose_plain(b, Call::Park),
        4 => backlog::choose(b),
        _ => choose_recover(b),
    }
}

// Stands a random call on the board: in a volume that is not running, mostly a recover.
pub fn choose(b: &mut [u32; board::SIZE]) {
    cells::set(b, board::ALLOWED, stand::ENOUGH);
    if board::phase(b) == Phase::Running {
        choose_running(b);
    } else {
        choose_stopped(b);
    }
}

// Every eighth call of the history itself has few stores.
pub fn choose_stores(b: &mut [u32; board::SIZE]) {
    if chance::below(b, 8) == 0 {
        let stores = chance::below(b, 6);
        cells::set(b, board::ALLOWED, stores);
    }
}
