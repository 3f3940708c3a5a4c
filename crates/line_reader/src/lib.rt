// The lines of an input, one after the other, by way of a window that the caller lends.
#![tactic(auto)]

ghost use Rattle.std.specs.Prelude.{◌≡◌, ℕ, ◌+◌, ◌≤◌, ◌<◌, length, get_or, IsTrue, IfErr};
ghost use Rattle.line_reader.specs.declared.LineError.TheVariants.{Unreadable};
ghost use Rattle.line_reader.specs.Reader.{line_bytes, window_bytes, Placed};

use paper::tokens;
use std::io::Read;

// The bytes of the longest line, without its newline.
pub const LINE: usize = 262_144;

// Twice a line, so that no more bytes are moved to the front than were passed since the last time.
pub const WINDOW: usize = 2 * LINE;

// The line that is next begins at `from`; no newline stands between there and `sought`; what was read ends at `filled`.
#[derive(Clone, Copy)]
pub struct Reader {
    pub from: usize,
    pub sought: usize,
    pub filled: usize,
    pub input: Input,
}

// What came of the last read.
#[derive(Clone, Copy, PartialEq, Eq, Debug)]
pub enum Input {
    // There may be more: it gave something, or there was none yet.
    Open,
    Ended,
    Failed,
}

// Why the line that is next cannot be given.
#[derive(Clone, Copy, PartialEq, Eq, Debug)]
pub enum LineError {
    // It has more than LINE bytes.
    Long,
    // Its end cannot be read.
    Unreadable,
}

impl Reader {
    pub fn opened() -> Reader
        ensures { Placed result }
    {
        Reader {
            from: 0,
            sought: 0,
            filled: 0,
            input: Input::Open,
        }
    }

    // The line that is next, or none where the input has ended. The length is judged first, so that it does not matter how much of the
    // input came with the last read. Where its end has not come yet it is unreadable: after `next_line` only where a read failed.
    pub fn standing(self, window: &[u8; WINDOW]) -> Result<Option<&[u8]>, LineError>
        requires { Placed self }
        ensures { IfErr result (λ e. e ≡ Unreadable → self.filled ≤ self.from + line_bytes) }
    {
        if self.sought - self.from > LINE {
            return Err(LineError::Long);
        }
        if self.sought == self.filled {
            if self.input != Input::Ended {
                return Err(LineError::Unreadable);
            }
            if self.from == self.filled {
                return Ok(None);
            }
        }
        Ok(Some(line(window, self)))
    }

    // Whether the end of the line that is next is still to be read.
    fn is_open(self) -> bool
        requires { Placed self }
        ensures { IsTrue result → self.filled ≤ self.from + line_bytes }
    {
        self.sought - self.from <= LINE && self.sought == self.filled && self.input == Input::Open
    }

    // The reader at the line after this one.
    pub fn passed(self) -> Reader
        requires { Placed self }
        ensures { Placed result }
    {
        let next = self.filled.min(self.sought + 1);
        Reader {
            from: next,
            sought: next,
            ..self
        }
    }
}

// The first newline from `from` on and before `to`, or `to` where there is none.
fn newline_in(window: &[u8], from: usize, to: usize) -> usize
    requires from_le_to { from ≤ to }
    requires to_in_bounds { to ≤ length window.now }
    ensures lower_bound { from ≤ result }
    ensures upper_bound { result ≤ to }
    ensures by_index { (k : ℕ) → k < result → from ≤ k → get_or window.now k 0 ≡ 10 → ⊥ }
    ensures result_value { result < to → get_or window.now result 0 ≡ 10 }
{
    for i in from..to {
        if window[i] == b'\n' {
            return i;
        }
    }
    to
}

// Goes on with the search where it stopped.
fn seek(window: &[u8; WINDOW], r: Reader) -> Reader
    requires { Placed r }
    ensures { Placed result }
{
    Reader {
        sought: newline_in(window, r.sought, r.filled),
        ..r
    }
}

// Where the window is full, what was passed makes room.
fn make_room(window: &mut [u8; WINDOW], r: Reader) -> Reader
    requires placed { Placed r }
    requires filled_bound { r.filled ≤ r.from + line_bytes }
    ensures { Placed result × (result.filled < window_bytes) }
{
    if r.filled < WINDOW {
        return r;
    }
    window.copy_within(r.from.., 0);
    Reader {
        from: 0,
        sought: r.sought - r.from,
        filled: r.filled - r.from,
        ..r
    }
}

// One read into what is free, which is not nothing: a read of no bytes would look like the end of the input.
fn read_once(input: &mut impl Read, window: &mut [u8], r: Reader) -> Reader
    requires window_len { length window.old ≡ window_bytes }
    requires placed { Placed r }
    requires filled_lt_window_bytes { r.filled < window_bytes }
    ensures { Placed result }
{
    let filled = r.filled;
    match input.read(&mut window[filled..]) {
        Ok(0) => Reader {
            input: Input::Ended,
            ..r
        },
        Ok(count) => Reader {
            filled: filled + count,
            input: Input::Open,
            ..r
        },
        Err(_) => Reader {
            input: Input::Failed,
            ..r
        },
    }
}

// Makes room, reads once, and seeks in what came.
fn seek_further(input: &mut impl Read, window: &mut [u8; WINDOW], r: Reader) -> Reader
    requires placed { Placed r }
    requires filled_bound { r.filled ≤ r.from + line_bytes }
    ensures { Placed result }
{
    let roomy = make_room(window, r);
    let longer = read_once(input, window, roomy);
    seek(window, longer)
}

// Reads until the line that is next stands in the window, or cannot. One read at a time, so that a paper typed by hand is answered
// line by line. Nothing says that the input ends, so the turns are a number that no run uses up.
pub fn next_line(input: &mut impl Read, window: &mut [u8; WINDOW], from: Reader) -> Reader
    requires { Placed from }
    ensures { Placed result }
{
    let mut r = seek(window, from);
    for _ in 0..u64::MAX {
        if !r.is_open() {
            break;
        }
        r = seek_further(input, window, r);
    }
    r
}

// The line that stands in the window, without a return at its end.
pub fn line(window: &[u8; WINDOW], r: Reader) -> &[u8] {
    tokens::trimmed(tokens::part(window, r.from, r.sought))
}
