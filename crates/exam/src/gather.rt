// The lines of a backlog, up to its end. Here nothing is made: its commits are written down as the call takes them.
ghost use Rattle.std.specs.Prelude.{◌≡◌, ◌≤◌, length};
ghost use Rattle.line_reader.specs.Reader.{Placed};

use crate::{calls, desk};
use batch_checks::COMMIT_WORDS;
use geometry::Geometry;
use line_reader::{Reader, WINDOW};
use paper::request;
use paper::request::{Call, Request};
use paper::trouble::{Fault, Trouble};
use std::io::{Print, Read};
use wording::say;

// The most commits that are written down, and the words, block numbers and bytes of so many, each of the most blocks of a line.
pub const COMMITS: u32 = 40;

pub const WORDS: usize = COMMITS as usize * COMMIT_WORDS;

pub const BLOCKS: usize = COMMITS as usize * request::MOST;

pub const BYTES: usize = BLOCKS * Geometry::SECTOR;

#[derive(Clone, Copy)]
pub struct Gathered {
    // The commits, and where their block numbers and their bytes end.
    pub commits: u32,
    pub blocks: usize,
    pub bytes: usize,
    // The number of the line that was read last.
    pub line: u32,
    // Whether its end has come: a flag, as the last line too goes on with what was gathered.
    pub closed: bool,
}

// What was gathered up to the end, if no line was in the way, and where the reader stands after it.
#[derive(Clone, Copy)]
pub struct Gathering {
    pub gathered: Option<Gathered>,
    pub reader: Reader,
}

// A line of a backlog is not understood, or there is none: what was wrong is said.
#[derive(Clone, Copy, PartialEq, Eq, Debug)]
pub struct Broken;

// A sum, or `most` where it is more.
fn added(x: usize, y: usize, most: usize) -> usize {
    x.saturating_add(y).min(most)
}

impl Gathered {
    // Nothing yet, after the first line.
    fn begun(line: u32) -> Gathered {
        Gathered {
            commits: 0,
            blocks: 0,
            bytes: 0,
            line,
            closed: false,
        }
    }

    // At the next line.
    fn moved(self) -> Gathered {
        Gathered {
            line: desk::counted(self.line),
            ..self
        }
    }

    // With one more commit.
    fn longer(self, blocks: usize, bytes: usize) -> Gathered {
        Gathered {
            commits: desk::counted(self.commits),
            blocks: added(self.blocks, blocks, BLOCKS),
            bytes: added(self.bytes, bytes, BYTES),
            ..self
        }
    }
}

// What a line asks for, where it is understood.
fn understood(
    rt: &impl Print,
    g: Gathered,
    call: Call,
    line: &[u8],
    found: Result<Request, Fault>,
) -> Result<Request, Broken> {
    match found {
        Ok(r) => Ok(r),
        Err(fault) => {
            say::say_trouble(rt, g.line, line, call, fault);
            Err(Broken)
        }
    }
}

// The end of a backlog has no other words.
fn take_end(rt: &impl Print, g: Gathered, line: &[u8]) -> Result<Gathered, Broken> {
    let found = request::request_without_blocks(line, Call::BacklogEnd);
    understood(rt, g, Call::BacklogEnd, line, found)?;
    Ok(Gathered { closed: true, ..g })
}

// The blocks of a commit and their bytes go after those before it. There is room for the most that each line has, so that of the
// three checks the first is the one that is met. (The lengths are BLOCKS and BYTES.)
fn read_commit(
    line: &[u8],
    call: Call,
    g: Gathered,
    blocks: &mut [u32],
    bytes: &mut [u8],
) -> Result<Request, Fault>
    requires blocks_len { length blocks.old ≡ 5120 }
    requires bytes_len { length bytes.old ≡ 2621440 }
{
    let block = g.blocks;
    let byte = g.bytes;
    if g.commits >= COMMITS || block > BLOCKS - request::MOST || byte > BYTES - desk::LINE_BYTES {
        return Err(request::turned_back(line, Trouble::Commits));
    }
    let blocks_end = block + request::MOST;
    let bytes_end = byte + desk::LINE_BYTES;
    request::request_of(
        line,
        call,
        &mut blocks[block..blocks_end],
        &mut bytes[byte..bytes_end],
    )
}

// The kinds of commits: 0 a write, 1 a drop. Numbers, as the C interface has them among a commit's words.
fn kind_of(call: Call) -> u32 {
    match call {
        Call::BacklogDrop => 1,
        _ => 0,
    }
}

// The bytes of so many blocks. A drop has none.
fn bytes_of(call: Call, count: usize) -> usize
    requires { count ≤ 128 }
    ensures { result ≤ 65536 }
{
    match call {
        Call::BacklogDrop => 0,
        _ => count * Geometry::SECTOR,
    }
}

// The words of a commit.
fn put_commit(
    words: &mut [u32; WORDS],
    commit: u32,
    kind: u32,
    head: u32,
    blocks: usize,
    bytes: usize,
)
    requires blocks_bound { blocks ≤ 128 }
    requires bytes_bound { bytes ≤ 65536 }
{
    if commit < COMMITS {
        let at = COMMIT_WORDS * commit as usize;
        words[at] = kind;
        words[at + 1] = head;
        words[at + 2] = blocks as u32;
        words[at + 3] = bytes as u32;
    }
}

// A write or a drop is written down.
fn take_commit(
    rt: &impl Print,
    g: Gathered,
    call: Call,
    line: &[u8],
    words: &mut [u32; WORDS],
    blocks: &mut [u32; BLOCKS],
    bytes: &mut [u8; BYTES],
) -> Result<Gathered, Broken> {
    let found = read_commit(line, call, g, blocks, bytes);
    let r = understood(rt, g, call, line, found)?;
    let count = calls::within(r.count, request::MOST);
    let own = bytes_of(call, count);
    put_commit(words, g.commits, kind_of(call), r.first, count, own);
    Ok(g.longer(count, own))
}

// A line of the backlog.
fn take_line(
    rt: &impl Print,
    g: Gathered,
    line: &[u8],
    words: &mut [u32; WORDS],
    blocks: &mut [u32; BLOCKS],
    bytes: &mut [u8; BYTES],
) -> Result<Gathered, Broken> {
    match request::call_in_backlog(line) {
        None => Ok(g),
        Some(Call::BacklogEnd) => take_end(rt, g, line),
        Some(call) => take_commit(rt, g, call, line, words, blocks, bytes),
    }
}

// What the reader found: the next line, or why there is none. `first` is the number of the backlog's first line.
fn take_next(
    rt: &impl Print,
    g: Gathered,
    first: u32,
    window: &[u8; WINDOW],
    reader: Reader,
    words: &mut [u32; WORDS],
    blocks: &mut [u32; BLOCKS],
    bytes: &mut [u8; BYTES],
) -> Result<Gathered, Broken>
    requires { Placed reader }
{
    let here = g.moved();
    match reader.standing(window) {
        Ok(Some(line)) => take_line(rt, here, line, words, blocks, bytes),
        Ok(None) => {
            say::say_open_backlog(rt, first);
            Err(Broken)
        }
        Err(error) => {
            desk::say_line_error(rt, here.line, error);
            Err(Broken)
        }
    }
}

// The lines after the first one, up to the end. They are counted like those of a paper.
pub fn gather(
    rt: &impl Print,
    input: &mut impl Read,
    window: &mut [u8; WINDOW],
    from: Reader,
    first: u32,
    words: &mut [u32; WORDS],
    blocks: &mut [u32; BLOCKS],
    bytes: &mut [u8; BYTES],
) -> Gathering
    requires { Placed from }
    ensures { Placed result.reader }
{
    let mut reader = from;
    let mut gathered = Gathered::begun(first);
    for _ in 0..u64::MAX {
        reader = line_reader::next_line(input, window, reader);
        let taken = take_next(rt, gathered, first, window, reader, words, blocks, bytes);
        reader = reader.passed();
        match taken {
            Ok(g) if !g.closed => gathered = g,
            Ok(g) => return Gathering {
                gathered: Some(g),
                reader,
            },
            Err(Broken) => break,
        }
    }
    Gathering {
        gathered: None,
        reader,
    }
}
