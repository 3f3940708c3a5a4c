// What a line of a script does. Calls, and what a volume shows, are carried out elsewhere.
#![tactic(auto)]

pub mod cell;
pub mod form;
pub mod parts;

use form::Kind;
use reference_board::board;
use reference_board::kinds::Call;
use trial_board::difference::Difference;
use trial_board::stand::Volume;
use trial_board::{backlog, cells, stand};

fn hold_fact(b: &mut [u32; board::SIZE], holds: bool) {
    cells::add(b, cells::FACTS, 1);
    cells::hold(b, holds, Difference::Sample);
}

// NAME VALUE, or NAME INDEX VALUE: a word of the board, from a cell on, and what it is or shall be.
#[derive(Clone, Copy)]
struct Named {
    from: u32,
    index: u32,
    value: u32,
}

fn find_named(line: &[u8]) -> Option<Named> {
    let from = cell::cell_of(parts::word(line, 1))?;
    if parts::has_word(line, 3) {
        return Some(Named {
            from,
            index: parts::number(line, 2),
            value: parts::number(line, 3),
        });
    }
    Some(Named {
        from,
        index: 0,
        value: parts::number(line, 2),
    })
}

// is NAME VALUE, or is NAME INDEX VALUE
fn hold_is(b: &mut [u32; board::SIZE], line: &[u8]) {
    if let Some(named) = find_named(line) {
        let holds = board::get(b, named.from, named.index) == named.value;
        hold_fact(b, holds);
    }
}

// sector K WORD VALUE: a word of the image.
fn hold_sector(b: &mut [u32; board::SIZE], line: &[u8]) {
    let x = board::word(
        b,
        board::IMAGE,
        parts::number(line, 1),
        parts::number(line, 2),
    );
    hold_fact(b, x == parts::number(line, 3));
}

fn is_answer(b: &[u32; board::SIZE], line: &[u8], k: u32) -> bool {
    (0..5u32).all(|i| board::answer_word(b, k, i) == parts::number(line, board::plus(i, 2)))
}

// answers K ANSWER STORES SKIPPED TAIL NUMBER: the words that answer commit K, from 0, of a batch.
fn hold_answers(b: &mut [u32; board::SIZE], line: &[u8]) {
    let holds = is_answer(b, line, parts::number(line, 1));
    hold_fact(b, holds);
}

// untouched K: those words are as they came.
fn hold_untouched(b: &mut [u32; board::SIZE], line: &[u8]) {
    let holds = backlog::is_untouched(b, parts::number(line, 1));
    hold_fact(b, holds);
}

// blank K: a sector of zeros.
fn hold_blank(b: &mut [u32; board::SIZE], line: &[u8]) {
    let blank = board::is_zero_sector(b, board::IMAGE, parts::number(line, 1));
    hold_fact(b, blank);
}

// rejects LINE: the rest is not of a known form.
fn hold_rejects(b: &mut [u32; board::SIZE], line: &[u8]) {
    let wrong = form::check(parts::rest(line)).is_err();
    hold_fact(b, wrong);
}

// set NAME VALUE, or set NAME INDEX VALUE
fn set(b: &mut [u32; board::SIZE], line: &[u8]) {
    if let Some(named) = find_named(line) {
        board::put(b, named.from, named.index, named.value);
    }
}

// put K WORD VALUE: a word of the image.
fn put(b: &mut [u32; board::SIZE], line: &[u8]) {
    board::put_word(
        b,
        board::IMAGE,
        parts::number(line, 1),
        parts::number(line, 2),
        parts::number(line, 3),
    );
}

// copy K J: the words of sector J into sector K.
fn copy(b: &mut [u32; board::SIZE], line: &[u8]) {
    board::copy_sector(
        b,
        board::IMAGE,
        parts::number(line, 1),
        board::IMAGE,
        parts::number(line, 2),
    );
}

// (The count is of blocks, and in `add_more` of commits.)
fn name_more(b: &mut [u32; board::SIZE], first: u32, step: u32, count: u32) {
    cells::set(b, cells::CURSOR, first);
    for _ in 0..count {
        name_next(b, step);
    }
}

fn name_next(b: &mut [u32; board::SIZE], step: u32) {
    let block = cells::get(b, cells::CURSOR);
    trial_disk::name_block(b, block, board::plus(block, 1001));
    cells::add(b, cells::CURSOR, step);
}

// blocks FIRST STEP COUNT
fn name_several(b: &mut [u32; board::SIZE], line: &[u8]) {
    name_more(
        b,
        parts::number(line, 1),
        parts::number(line, 2),
        parts::number(line, 3),
    );
}

// The single call of a commit's kind, a number as among a commit's words. What is no write has no bytes.
fn single_of(kind: u32) -> Call {
    if kind == 0 { Call::Write } else { Call::Drop }
}

// commit KIND HEAD: one more of a backlog, with the blocks named since the last.
fn add_commit(b: &mut [u32; board::SIZE], kind: u32, head: u32) {
    stand(b, single_of(kind), head);
    backlog::add(b, kind);
    cells::set(b, board::COUNT, 0);
    cells::set(b, cells::BYTES_MORE, 0);
}

fn add_next(b: &mut [u32; board::SIZE], kind: u32, head: u32) {
    name_next(b, 1);
    add_commit(b, kind, head);
}

fn add_more(b: &mut [u32; board::SIZE], kind: u32, head: u32, first: u32, count: u32) {
    cells::set(b, cells::CURSOR, first);
    for _ in 0..count {
        add_next(b, kind, head);
    }
}

// commits KIND HEAD FIRST COUNT: so many, of one block each.
fn add_several(b: &mut [u32; board::SIZE], line: &[u8]) {
    add_more(
        b,
        parts::number(line, 1),
        parts::number(line, 2),
        parts::number(line, 3),
        parts::number(line, 4),
    );
}

// The call that a line is.
pub fn call_of(kind: Kind) -> Option<Call> {
    match kind {
        Kind::Format => Some(Call::Format),
        Kind::Write => Some(Call::Write),
        Kind::Drop => Some(Call::Drop),
        Kind::Read => Some(Call::Read),
        Kind::Park => Some(Call::Park),
        Kind::Recover => Some(Call::Recover),
        Kind::Batch => Some(Call::Batch),
        _ => None,
    }
}

// The bytes that go with a call.
fn bytes_of(b: &[u32; board::SIZE], call: Call) -> u32 {
    match call {
        Call::Write => board::bytes(cells::get(b, board::COUNT)),
        Call::Read => 512,
        _ => 0,
    }
}

// The single call that a line is, or the commit of a backlog.
fn stand(b: &mut [u32; board::SIZE], call: Call, argument: u32) {
    let bytes = board::plus(bytes_of(b, call), cells::get(b, cells::BYTES_MORE));
    board::put_call(b, call);
    cells::set(b, board::BYTES_LENGTH, bytes);
    if call == Call::Read {
        cells::set(b, board::BLOCKS, argument);
    } else {
        cells::set(b, board::HEAD, argument);
    }
}

// Stands the call that a line is on the board.
pub fn stand_call(b: &mut [u32; board::SIZE], call: Call, argument: u32) {
    if call == Call::Batch {
        backlog::stand(b, 3_000_000_000);
    } else {
        stand(b, call, argument);
    }
}

// The next call names its blocks and its commits anew, and has enough stores.
pub fn clear(b: &mut [u32; board::SIZE]) {
    backlog::clear(b);
    cells::set(b, board::COUNT, 0);
    cells::set(b, cells::BYTES_MORE, 0);
    cells::set(b, board::ALLOWED, stand::ENOUGH);
}

// Damage.
fn change(b: &mut [u32; board::SIZE], line: &[u8], kind: Kind) {
    match kind {
        Kind::Set => set(b, line),
        Kind::Put => put(b, line),
        Kind::Balance => cells::balance(b, parts::number(line, 1)),
        Kind::Copy => copy(b, line),
        _ => {}
    }
}

// Facts, or damage. A match: a function for a kind would be chosen by the same one.
fn hold(b: &mut [u32; board::SIZE], line: &[u8], kind: Kind) {
    match kind {
        Kind::Is => hold_is(b, line),
        Kind::Answers => hold_answers(b, line),
        Kind::Untouched => hold_untouched(b, line),
        Kind::Sector => hold_sector(b, line),
        Kind::Blank => hold_blank(b, line),
        Kind::Rejects => hold_rejects(b, line),
        _ => change(b, line, kind),
    }
}

// volume L N
fn stand_volume(b: &mut [u32; board::SIZE], line: &[u8]) {
    let volume = Volume::plain(parts::number(line, 1), parts::number(line, 2));
    stand::stand_format(b, volume);
}

// drive PER-TRACK TRACKS SWITCH
fn put_settings(b: &mut [u32; board::SIZE], line: &[u8]) {
    stand::put_settings(
        b,
        parts::number(line, 1),
        parts::number(line, 2),
        parts::number(line, 3),
    );
}

// Carries a line out that is neither a call nor looks at what a volume shows: what goes with the next call, a fact, or damage.
pub fn carry_out(b: &mut [u32; board::SIZE], line: &[u8], kind: Kind) {
    match kind {
        Kind::Volume => stand_volume(b, line),
        Kind::Drive => put_settings(b, line),
        Kind::Block => { trial_disk::name_block(b, parts::number(line, 1), parts::number(line, 2)) }
        Kind::Blocks => name_several(b, line),
        Kind::Stores => cells::set(b, board::ALLOWED, parts::number(line, 1)),
        Kind::BytesMore => cells::set(b, cells::BYTES_MORE, parts::number(line, 1)),
        Kind::Commit => add_commit(b, parts::number(line, 1), parts::number(line, 2)),
        Kind::Commits => add_several(b, line),
        _ => hold(b, line, kind),
    }
}
