// A backlog: its lines are gathered up to its end, and then its commits are made in one call.
ghost use Rattle.std.specs.Prelude.{◌≡◌};
ghost use Rattle.lending.specs.Lending.{lengths_held, SameLent};
ghost use Rattle.line_reader.specs.Reader.{Placed};

use crate::desk::Desk;
use crate::gather::Gathered;
use crate::{calls, desk, gather};
use answer::Cost;
use batch_checks::{ANSWER_WORDS, COMMIT_WORDS};
use geometry::Geometry;
use lending::Memory;
use line_reader::{Reader, WINDOW};
use paper::request::Call;
use paper::tokens;
use state::{BatchOutcome, State};
use std::io::{Print, Read};
use wording::backlog;

const ANSWERS: usize = gather::COMMITS as usize * ANSWER_WORDS;

// The desk after a line, or after the backlog that it begins, and the reader at the line that is next.
#[derive(Clone, Copy)]
pub struct Turn {
    pub desk: Desk,
    pub reader: Reader,
}

// Lends the parts that belong to the volume, and what was gathered.
fn lend_parts(
    s: State,
    g: Gathered,
    image: &mut [u8],
    map: &mut [u32],
    places: &mut [u32],
    numbers: &mut [u32],
    used: &mut [u8],
    words: &[u32],
    blocks: &[u32],
    bytes: &[u8],
    stores: u32,
    answers: &mut [u32],
) -> BatchOutcome {
    let size = s.geometry;
    let pieces = Geometry::pieces_for(size.l) as usize;
    let commits = g.commits as usize;
    let mut part = Memory {
        image: calls::first(image, calls::bytes_of(size.n)),
        map: calls::first(map, size.l as usize),
        places: calls::first(places, pieces),
        numbers: calls::first(numbers, pieces),
        used: calls::first(used, size.used_bytes() as usize),
    };
    batch::batch(
        s,
        &mut part,
        tokens::part(words, 0, COMMIT_WORDS * commits),
        tokens::part(blocks, 0, g.blocks),
        tokens::part(bytes, 0, g.bytes),
        stores,
        calls::first(answers, ANSWER_WORDS * commits),
    )
}

// The call on the volume in all that the program holds.
fn lend(
    s: State,
    g: Gathered,
    m: &mut Memory<'_>,
    words: &[u32],
    blocks: &[u32],
    bytes: &[u8],
    stores: u32,
    answers: &mut [u32],
) -> BatchOutcome
    ensures lent { SameLent m.new m.old }
    ensures lengths { lengths_held m.new ≡ lengths_held m.old }
{
    let image = &mut *m.image;
    let map = &mut *m.map;
    let places = &mut *m.places;
    let numbers = &mut *m.numbers;
    let used = &mut *m.used;
    lend_parts(
        s, g, image, map, places, numbers, used, words, blocks, bytes, stores, answers,
    )
}

// The word at i, and 0 past the end.
fn word_at(words: &[u32], i: usize) -> u32 {
    words.get(i).copied().unwrap_or(0)
}

// The name of a commit's line, by its kind: a number, as the C interface has it among the commit's words.
fn call_of(kind: u32) -> Call {
    match kind {
        1 => Call::Drop,
        _ => Call::Write,
    }
}

// The line of a commit that was answered: its number, its cost, and the tail and number that it left.
fn say_commit(rt: &impl Print, s: State, words: &[u32], answers: &[u32], commit: u32) {
    let kind = word_at(words, COMMIT_WORDS * commit as usize);
    let at = ANSWER_WORDS * commit as usize;
    let cost = Cost {
        stores: word_at(answers, at + 1),
        skipped: word_at(answers, at + 2),
    };
    let left = s.committed(word_at(answers, at + 3), word_at(answers, at + 4));
    backlog::say_commit(rt, call_of(kind), word_at(answers, at), cost, left);
}

fn say_commits(rt: &impl Print, s: State, words: &[u32], answers: &[u32], answered: u32) {
    for i in 0..answered {
        say_commit(rt, s, words, answers, i);
    }
}

// Makes what was gathered, and says it.
fn make(
    rt: &impl Print,
    desk: Desk,
    g: Gathered,
    m: &mut Memory<'_>,
    words: &[u32; gather::WORDS],
    blocks: &[u32; gather::BLOCKS],
    bytes: &[u8; gather::BYTES],
    stores: u32,
) -> Desk
    ensures lent { SameLent m.new m.old }
    ensures lengths { lengths_held m.new ≡ lengths_held m.old }
{
    let mut answers = [0u32; ANSWERS];
    let before = desk.state;
    let done = lend(before, g, m, words, blocks, bytes, stores, &mut answers);
    let after = done.state;
    let verdict = done.verdict;
    backlog::say_backlog(rt, verdict, done.answered, g.commits);
    say_commits(rt, after, words, &answers, done.answered);
    desk.after_backlog(after, g.line)
}

// The lines of a backlog, and the call that they ask for. Where a line is not understood, nothing is made.
fn answer_commits(
    rt: &impl Print,
    input: &mut impl Read,
    desk: Desk,
    stores: u32,
    window: &mut [u8; WINDOW],
    reader: Reader,
    m: &mut Memory<'_>,
) -> Turn
    requires { Placed reader }
    ensures placed { Placed result.reader }
    ensures lent { SameLent m.new m.old }
    ensures lengths { lengths_held m.new ≡ lengths_held m.old }
{
    let mut words = [0u32; gather::WORDS];
    let mut blocks = [0u32; gather::BLOCKS];
    let mut bytes = [0u8; gather::BYTES];
    let found = gather::gather(
        rt,
        input,
        window,
        reader,
        desk.line,
        &mut words,
        &mut blocks,
        &mut bytes,
    );
    let desk = match found.gathered {
        Some(gathered) => make(rt, desk, gathered, m, &words, &blocks, &bytes, stores),
        None => desk.stop(),
    };
    Turn {
        desk,
        reader: found.reader,
    }
}

// The backlog that the last line began, where it began one.
fn answer_backlog(
    rt: &impl Print,
    input: &mut impl Read,
    desk: Desk,
    window: &mut [u8; WINDOW],
    reader: Reader,
    m: &mut Memory<'_>,
) -> Turn
    requires { Placed reader }
    ensures placed { Placed result.reader }
    ensures lent { SameLent m.new m.old }
    ensures lengths { lengths_held m.new ≡ lengths_held m.old }
{
    match desk.backlog {
        None => Turn { desk, reader },
        Some(stores) => answer_commits(rt, input, desk, stores, window, reader, m),
    }
}

// What the reader found: the next line, and the backlog where it begins one.
pub fn answer_turn(
    rt: &impl Print,
    input: &mut impl Read,
    desk: Desk,
    window: &mut [u8; WINDOW],
    reader: Reader,
    m: &mut Memory<'_>,
) -> Turn
    requires { Placed reader }
    ensures placed { Placed result.reader }
    ensures lent { SameLent m.new m.old }
    ensures lengths { lengths_held m.new ≡ lengths_held m.old }
{
    let here = desk::answer_next(rt, desk, window, reader, m);
    answer_backlog(rt, input, here, window, reader.passed(), m)
}
