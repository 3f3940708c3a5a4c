// Plug-pulls of a backlog in words: three commits on the volume of the other plug-pulls, after its first write.
use crate::copies::on_copy;
use crate::{cuts, plugs};
use reference_board::board;
use reference_board::kinds::Call;
use std::io::Print;
use trial_board::{backlog, cells, stand};
use wording::say;

fn name(b: &mut [u32; board::SIZE], block: u32, seed: u32, head: u32) {
    cells::set(b, board::COUNT, 0);
    trial_disk::name_block(b, block, seed);
    cells::set(b, board::HEAD, head);
}

fn add_write(b: &mut [u32; board::SIZE], block: u32, seed: u32, head: u32) {
    name(b, block, seed, head);
    cells::set(b, board::BYTES_LENGTH, 512);
    backlog::add(b, 0);
}

fn add_drop(b: &mut [u32; board::SIZE], block: u32, head: u32) {
    name(b, block, 0, head);
    cells::set(b, board::BYTES_LENGTH, 0);
    backlog::add(b, 1);
}

// Block 5 is written, block 100 dropped and block 7 written.
fn stand_backlog(b: &mut [u32; board::SIZE]) {
    backlog::clear(b);
    add_write(b, 5, 3000, 0);
    add_drop(b, 100, 6);
    add_write(b, 7, 4000, 0);
    backlog::stand(b, 1);
}

fn accept(b: &mut [u32; board::SIZE], commits: u32) {
    for i in 0..commits {
        board::put_answer_word(b, i, 0, 0);
    }
}

// The plain disk as it would be with the first so many commits.
fn settle_first(b: &mut [u32; board::SIZE], commits: u32) {
    accept(b, commits);
    board::put_call(b, Call::Batch);
    cells::set(b, board::ANSWER, 0);
    cells::set(b, board::COMMITS_ANSWERED, commits);
    trial_disk::settle_call(b);
}

fn shows_first(b: &[u32; board::SIZE], commits: u32) -> bool {
    on_copy(b, |c| {
        settle_first(c, commits);
        trial_shown::shows(c, 0)
    })
}

// How many of the commits the volume shows, the first ones.
fn shown(b: &[u32; board::SIZE]) -> Option<u32> {
    (0..4u32).find(|commits| shows_first(b, *commits))
}

fn say_shown(rt: &impl Print, b: &[u32; board::SIZE]) {
    match shown(b) {
        Some(0) => say::say(rt, b"; it shows none of the three.\n"),
        Some(1) => say::say(rt, b"; it shows the first.\n"),
        Some(2) => say::say(rt, b"; it shows the first two.\n"),
        Some(3) => say::say(rt, b"; it shows all three.\n"),
        _ => say::say(rt, b"; it shows something else.\n"),
    }
}

fn say_answer(rt: &impl Print, b: &[u32; board::SIZE], i: u32) {
    say::say_count(rt, b" ", board::answer_word(b, i, 0));
}

fn say_answers(rt: &impl Print, b: &[u32; board::SIZE]) {
    let answered = cells::get(b, board::COMMITS_ANSWERED);
    for i in 0..answered {
        say_answer(rt, b, i);
    }
}

// The backlog with so many stores, and what a recovery then shows.
fn pull(rt: &impl Print, b: &[u32; board::SIZE], stores: u32) {
    on_copy(b, |c| {
        cells::set(c, board::ALLOWED, stores);
        cuts::perform(c);
        say::say_count(
            rt,
            b"A backlog of three commits, the plug pulled after ",
            stores,
        );
        say::say(rt, b" of 5 stores: answers");
        say_answers(rt, c);
        cuts::recover(c, stand::ENOUGH);
        plugs::say_recovery(rt, c);
        say_shown(rt, c);
    });
}

pub fn run(rt: &impl Print, b: &mut [u32; board::SIZE]) {
    stand_backlog(b);
    for stores in 0..6u32 {
        pull(rt, b, stores);
    }
}
