// The forms of a script's lines: what may follow the first word. A line is held to its form before anything of it is carried out.
use crate::{cell, parts};
use reference_board::board;

// A line by its first word.
#[derive(Clone, Copy)]
pub enum Kind {
    Volume,
    Drive,
    Block,
    Blocks,
    Stores,
    BytesMore,
    Commit,
    Commits,
    Format,
    Write,
    Drop,
    Read,
    Park,
    Recover,
    Batch,
    Is,
    Answers,
    Untouched,
    Sector,
    Blank,
    Shows,
    Rejects,
    Set,
    Put,
    Balance,
    Copy,
}

impl Kind {
    // The form of such a line, as it is written for people.
    pub fn text(self) -> &'static [u8] {
        match self {
            Kind::Volume => b"volume L N",
            Kind::Drive => b"drive PER-TRACK TRACKS SWITCH",
            Kind::Block => b"block B SEED",
            Kind::Blocks => b"blocks FIRST STEP COUNT",
            Kind::Stores => b"stores K",
            Kind::BytesMore => b"bytes-more K",
            Kind::Commit => b"commit KIND HEAD",
            Kind::Commits => b"commits KIND HEAD FIRST COUNT",
            Kind::Format => b"format",
            Kind::Write => b"write HEAD",
            Kind::Drop => b"drop HEAD",
            Kind::Read => b"read B",
            Kind::Park => b"park",
            Kind::Recover => b"recover",
            Kind::Batch => b"batch",
            Kind::Is => b"is NAME [INDEX] VALUE",
            Kind::Answers => b"answers K ANSWER STORES SKIPPED TAIL NUMBER",
            Kind::Untouched => b"untouched K",
            Kind::Sector => b"sector K WORD VALUE",
            Kind::Blank => b"blank K",
            Kind::Shows => b"shows",
            Kind::Rejects => b"rejects LINE",
            Kind::Set => b"set NAME [INDEX] VALUE",
            Kind::Put => b"put K WORD VALUE",
            Kind::Balance => b"balance K",
            Kind::Copy => b"copy K J",
        }
    }
}

// What follows: so many numbers; a name and so many numbers; words of any kind.
#[derive(Clone, Copy)]
enum Form {
    Numbers { least: u32, most: u32 },
    Named { least: u32, most: u32 },
    Words,
}

// The first word that is not as its form asks, counted from 0.
#[derive(Clone, Copy)]
pub enum Wrong {
    Name(u32),
    Number(u32),
    Missing,
    TooMany(u32),
}

// A line that is not carried out. No Option: that its first word is no kind's is an error as well.
#[derive(Clone, Copy)]
pub enum BadLine {
    // Its first word is no kind's.
    FirstWord,
    Form(Kind, Wrong),
}

// A short match for each group of lines, in place of one long one.
fn argument_kind(first: &[u8]) -> Option<Kind> {
    match first {
        b"volume" => Some(Kind::Volume),
        b"drive" => Some(Kind::Drive),
        b"block" => Some(Kind::Block),
        b"blocks" => Some(Kind::Blocks),
        b"stores" => Some(Kind::Stores),
        b"bytes-more" => Some(Kind::BytesMore),
        b"commit" => Some(Kind::Commit),
        b"commits" => Some(Kind::Commits),
        _ => call_kind(first),
    }
}

fn call_kind(first: &[u8]) -> Option<Kind> {
    match first {
        b"format" => Some(Kind::Format),
        b"write" => Some(Kind::Write),
        b"drop" => Some(Kind::Drop),
        b"read" => Some(Kind::Read),
        b"park" => Some(Kind::Park),
        b"recover" => Some(Kind::Recover),
        b"batch" => Some(Kind::Batch),
        _ => fact_kind(first),
    }
}

fn fact_kind(first: &[u8]) -> Option<Kind> {
    match first {
        b"is" => Some(Kind::Is),
        b"answers" => Some(Kind::Answers),
        b"untouched" => Some(Kind::Untouched),
        b"sector" => Some(Kind::Sector),
        b"blank" => Some(Kind::Blank),
        b"shows" => Some(Kind::Shows),
        b"rejects" => Some(Kind::Rejects),
        _ => damage_kind(first),
    }
}

fn damage_kind(first: &[u8]) -> Option<Kind> {
    match first {
        b"set" => Some(Kind::Set),
        b"put" => Some(Kind::Put),
        b"balance" => Some(Kind::Balance),
        b"copy" => Some(Kind::Copy),
        _ => None,
    }
}

fn kind_of(line: &[u8]) -> Option<Kind> {
    argument_kind(parts::word(line, 0))
}

fn numbers(count: u32) -> Form {
    Form::Numbers {
        least: count,
        most: count,
    }
}

fn form_of(kind: Kind) -> Form {
    match kind {
        Kind::Volume => numbers(2),
        Kind::Drive => numbers(3),
        Kind::Block => numbers(2),
        Kind::Blocks => numbers(3),
        Kind::Stores => numbers(1),
        Kind::BytesMore => numbers(1),
        Kind::Commit => numbers(2),
        Kind::Commits => numbers(4),
        Kind::Format => numbers(0),
        Kind::Write => numbers(1),
        Kind::Drop => numbers(1),
        Kind::Read => numbers(1),
        Kind::Park => numbers(0),
        Kind::Recover => numbers(0),
        Kind::Batch => numbers(0),
        Kind::Is => Form::Named { least: 1, most: 2 },
        Kind::Answers => numbers(6),
        Kind::Untouched => numbers(1),
        Kind::Sector => numbers(3),
        Kind::Blank => numbers(1),
        Kind::Shows => numbers(0),
        Kind::Rejects => Form::Words,
        Kind::Set => Form::Named { least: 1, most: 2 },
        Kind::Put => numbers(3),
        Kind::Balance => numbers(1),
        Kind::Copy => numbers(2),
    }
}

// Word i where a number may stand, and must where it is needed.
fn check_number(line: &[u8], i: u32, needed: bool) -> Result<(), Wrong> {
    if parts::is_number(line, i) {
        return Ok(());
    }
    if parts::has_word(line, i) {
        return Err(Wrong::Number(i));
    }
    if needed { Err(Wrong::Missing) } else { Ok(()) }
}

// The numbers from word `first` on, at least and at most so many.
fn check_numbers(line: &[u8], first: u32, least: u32, most: u32) -> Result<(), Wrong> {
    for i in 0..most {
        check_number(line, board::plus(first, i), i < least)?;
    }
    let end = board::plus(first, most);
    if parts::has_word(line, end) {
        return Err(Wrong::TooMany(end));
    }
    Ok(())
}

// A name, and the numbers after it.
fn check_named(line: &[u8], least: u32, most: u32) -> Result<(), Wrong> {
    check_words(line)?;
    if cell::cell_of(parts::word(line, 1)).is_none() {
        return Err(Wrong::Name(1));
    }
    check_numbers(line, 2, least, most)
}

fn check_words(line: &[u8]) -> Result<(), Wrong> {
    if parts::has_word(line, 1) {
        return Ok(());
    }
    Err(Wrong::Missing)
}

fn check_form(line: &[u8], form: Form) -> Result<(), Wrong> {
    match form {
        Form::Numbers { least, most } => check_numbers(line, 1, least, most),
        Form::Named { least, most } => check_named(line, least, most),
        Form::Words => check_words(line),
    }
}

// The kind of a line that is as its form asks, or what is wrong with it.
pub fn check(line: &[u8]) -> Result<Kind, BadLine> {
    match kind_of(line) {
        None => Err(BadLine::FirstWord),
        Some(kind) => match check_form(line, form_of(kind)) {
            Ok(()) => Ok(kind),
            Err(wrong) => Err(BadLine::Form(kind, wrong)),
        },
    }
}

// The word that is wrong.
pub fn found(line: &[u8], bad: BadLine) -> &[u8] {
    match bad {
        BadLine::Form(_, Wrong::Name(i) | Wrong::Number(i) | Wrong::TooMany(i)) => {
            parts::word(line, i)
        }
        BadLine::FirstWord | BadLine::Form(_, Wrong::Missing) => parts::word(line, 0),
    }
}
