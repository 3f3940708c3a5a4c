// Answers a paper: each line of standard input is a call on a volume, and its answer is written on standard output.
#![tactic(auto)]

mod backlog;
mod calls;
mod desk;
mod gather;
mod given;

use desk::Desk;
use lending::Memory;
use line_reader::Reader;
use std::io::{Print, Read};

// The lines of a paper, one after the other. Nothing says that a paper ends, so they are counted up to a number that no run reaches. The
// arrays come from the caller: of one that is lent as a slice where it is made the check would count the elements.
fn answer_lines(
    rt: &impl Print,
    input: &mut impl Read,
    image: &mut [u8; desk::IMAGE],
    map: &mut [u32; desk::MAP],
    places: &mut [u32; desk::PIECES],
    numbers: &mut [u32; desk::PIECES],
    used: &mut [u8; desk::USED],
) {
    let mut m = Memory {
        image,
        map,
        places,
        numbers,
        used,
    };
    let mut window = [0u8; line_reader::WINDOW];
    let mut reader = Reader::opened();
    let mut desk = Desk::opened();
    for _ in 0..u64::MAX {
        reader = line_reader::next_line(input, &mut window, reader);
        let turn = backlog::answer_turn(rt, input, desk, &mut window, reader, &mut m);
        desk = turn.desk;
        reader = turn.reader;
        if desk.stopped {
            break;
        }
    }
}

fn main(rt: HostRuntime) {
    let mut input = rt.stdin();
    let mut image = [0u8; desk::IMAGE];
    let mut map = [0u32; desk::MAP];
    let mut places = [0u32; desk::PIECES];
    let mut numbers = [0u32; desk::PIECES];
    let mut used = [0u8; desk::USED];
    answer_lines(
        &rt,
        &mut input,
        &mut image,
        &mut map,
        &mut places,
        &mut numbers,
        &mut used,
    );
}
