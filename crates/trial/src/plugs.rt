// Some plug-pulls in words: a volume of 200 blocks in 12 sectors, whose blocks 5 and 100 are written twice.
use crate::copies::on_copy;
use crate::cuts;
use reference_board::board;
use reference_board::kinds::{Call, Way};
use std::io::Print;
use trial_board::stand::Volume;
use trial_board::{cells, stand};
use wording::say;

fn stand_write(b: &mut [u32; board::SIZE], head: u32) {
    board::put_call(b, Call::Write);
    cells::set(b, board::HEAD, head);
    cells::set(b, board::BYTES_LENGTH, 1024);
    cells::set(b, board::ALLOWED, stand::ENOUGH);
}

// Stands a write of blocks 5 and 100 on the board.
fn stand_blocks(b: &mut [u32; board::SIZE], head: u32, seed: u32) {
    cells::set(b, board::COUNT, 0);
    trial_disk::name_block(b, 5, seed);
    trial_disk::name_block(b, 100, board::plus(seed, 1));
    stand_write(b, head);
}

// The volume after its first write, and the second one on the board.
fn begin(b: &mut [u32; board::SIZE]) {
    stand::stand_format(b, Volume::plain(200, 12));
    cuts::perform(b);
    stand_blocks(b, 6, 1000);
    cuts::perform(b);
    trial_disk::settle_call(b);
    stand_blocks(b, 0, 2000);
}

fn say_answer(rt: &impl Print, b: &[u32; board::SIZE], stores: u32, needed: u32) {
    say::say_count(rt, b", the plug pulled after ", stores);
    say::say_count(rt, b" of ", needed);
    say::say_count(rt, b" stores: answer ", cells::get(b, board::ANSWER));
}

pub fn say_recovery(rt: &impl Print, b: &[u32; board::SIZE]) {
    if cells::get(b, board::WAY) == Way::Walk as u32 {
        say::say(rt, b". A recovery walks, ");
    } else {
        say::say(rt, b". A recovery scans, ");
    }
    say::say_count(rt, b"reads ", cells::get(b, board::READS));
    say::say_count(rt, b" sectors and stores ", cells::get(b, board::STORES));
}

// The plain disk as it would be with the second write.
fn settle_second(b: &mut [u32; board::SIZE]) {
    board::put_call(b, Call::Write);
    cells::set(b, board::ANSWER, 0);
    trial_disk::settle_call(b);
}

fn say_blocks(rt: &impl Print, b: &mut [u32; board::SIZE]) {
    if trial_shown::shows(b, 0) {
        say::say(rt, b"; blocks 5 and 100 show the first write.\n");
    } else {
        settle_second(b);
        say_second(rt, b);
    }
}

fn say_second(rt: &impl Print, b: &[u32; board::SIZE]) {
    if trial_shown::shows(b, 0) {
        say::say(rt, b"; blocks 5 and 100 show the second write.\n");
    } else {
        say::say(rt, b"; blocks 5 and 100 show something else.\n");
    }
}

fn say_end(rt: &impl Print, b: &mut [u32; board::SIZE]) {
    cuts::recover(b, stand::ENOUGH);
    say_recovery(rt, b);
    say_blocks(rt, b);
}

// The second write with so many stores, and what a recovery then shows.
fn pull(rt: &impl Print, b: &[u32; board::SIZE], stores: u32) {
    on_copy(b, |c| {
        cells::set(c, board::ALLOWED, stores);
        cuts::perform(c);
        say::say(rt, b"A second write of blocks 5 and 100");
        say_answer(rt, c, stores, 4);
        say_end(rt, c);
    });
}

// The second write cut before its closing sector, and the plug pulled in the recovery too.
fn pull_twice(rt: &impl Print, b: &[u32; board::SIZE]) {
    on_copy(b, |c| {
        cells::set(c, board::ALLOWED, 3);
        cuts::perform(c);
        cuts::recover(c, 0);
        say::say(rt, b"The recovery after 3 of them");
        say_answer(rt, c, 0, 1);
        say_end(rt, c);
    });
}

fn stand_park(b: &mut [u32; board::SIZE], stores: u32) {
    board::put_call(b, Call::Park);
    cells::set(b, board::BYTES_LENGTH, 0);
    cells::set(b, board::ALLOWED, stores);
}

// A park in place of the second write.
fn pull_park(rt: &impl Print, b: &[u32; board::SIZE], stores: u32) {
    on_copy(b, |c| {
        stand_park(c, stores);
        cuts::perform(c);
        say::say(rt, b"A park instead");
        say_answer(rt, c, stores, 1);
        say_end(rt, c);
    });
}

pub fn run(rt: &impl Print, b: &mut [u32; board::SIZE]) {
    begin(b);
    for stores in 0..5u32 {
        pull(rt, b, stores);
    }
    pull_twice(rt, b);
    pull_park(rt, b, 0);
    pull_park(rt, b, 1);
}
