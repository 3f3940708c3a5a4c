// The script on standard input: calls with chosen arguments, and facts that hold after them.
use crate::cuts;
use paper::tokens;
use reference_board::board;
use reference_board::kinds::Call;
use std::io::Print;
use trial_board::cells;
use trial_board::difference::Difference;
use trial_script::form::{BadLine, Kind};
use trial_script::{form, parts};

// So many bytes of a script are read.
pub const MOST: usize = 65_536;

fn perform(b: &mut [u32; board::SIZE], call: Call, argument: u32) {
    trial_script::stand_call(b, call, argument);
    cuts::perform(b);
    trial_disk::settle_call(b);
    trial_script::clear(b);
}

// shows: a read of each block gives the plain disk's.
fn carry_out_other(b: &mut [u32; board::SIZE], line: &[u8], kind: Kind) {
    match kind {
        Kind::Shows => trial_shown::compare(b, 0),
        _ => trial_script::carry_out(b, line, kind),
    }
}

fn carry_out(b: &mut [u32; board::SIZE], line: &[u8], kind: Kind) {
    match trial_script::call_of(kind) {
        Some(call) => perform(b, call, parts::number(line, 1)),
        None => carry_out_other(b, line, kind),
    }
}

// A line that is not of its form is reported and not carried out.
fn refuse(rt: &impl Print, b: &mut [u32; board::SIZE], line: &[u8], bad: BadLine) {
    let word = form::found(line, bad);
    trial_report::say_bad_line(rt, cells::get(b, cells::LINE), word, bad);
    cells::hold(b, false, Difference::Sample);
}

fn carry_out_line(rt: &impl Print, b: &mut [u32; board::SIZE], line: &[u8]) {
    cells::add(b, cells::LINE, 1);
    if parts::is_passed(line) {
        return;
    }
    match form::check(line) {
        Ok(kind) => carry_out(b, line, kind),
        Err(bad) => refuse(rt, b, line, bad),
    }
}

// The line that begins at `at`, if one does, and where the next one begins.
fn carry_out_at(rt: &impl Print, b: &mut [u32; board::SIZE], text: &[u8], at: usize) -> usize {
    if at >= text.len() {
        return at;
    }
    let end = tokens::line_end(text, at);
    carry_out_line(rt, b, tokens::trimmed(tokens::part(text, at, end)));
    tokens::after(text, end)
}

// The lines of a script. Each takes a byte at least.
pub fn run(rt: &impl Print, b: &mut [u32; board::SIZE], text: &[u8]) {
    let mut at = 0usize;
    for _ in 0..text.len() {
        at = carry_out_at(rt, b, text, at);
    }
}

// A script that is longer than what is read: a line may be cut, so none is carried out.
pub fn refuse_all(rt: &impl Print, b: &mut [u32; board::SIZE]) {
    trial_report::say_too_long(rt, MOST as u32);
    cells::hold(b, false, Difference::Sample);
}
