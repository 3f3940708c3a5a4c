// The bytes of a block as a paper writes them: text in quotes, or x and hexadecimal digits.
ghost use Rattle.std.specs.Prelude.{◌≤◌};

use crate::tokens;
use crate::trouble::{Fault, Trouble};

// Bytes of a block.
pub const BLOCK: usize = 512;

// The data of a block, and where its line goes on after it.
#[derive(Clone, Copy)]
pub struct Data<'a> {
    pub text: &'a [u8],
    pub hex: bool,
    pub next: usize,
}

// Bytes 32 to 126 without the quote.
fn is_plain(b: u8) -> bool {
    matches!(b, b' '..=b'~') && b != b'"'
}

pub fn all_plain(text: &[u8]) -> bool {
    text.iter().all(|b| is_plain(*b))
}

// Text: `from` is just after the quote.
fn quoted(line: &[u8], from: usize) -> Result<Data<'_>, Fault> {
    let to = tokens::find(line, from, b'"');
    if to >= line.len() {
        return Err(Trouble::Quote.at(from));
    }
    let text = tokens::part(line, from, to);
    if !all_plain(text) {
        return Err(Trouble::Text.at(from));
    }
    if text.len() > BLOCK {
        return Err(Trouble::Long.at(from));
    }
    let next = tokens::after(line, to);
    if next < line.len() && !tokens::is_space(line[next]) {
        return Err(Trouble::Space.at(next));
    }
    Ok(Data {
        text,
        hex: false,
        next,
    })
}

// Hexadecimal digits: `from` is just after the x.
fn hexadecimal(line: &[u8], from: usize) -> Result<Data<'_>, Fault> {
    let next = tokens::word_end(line, from);
    let text = tokens::part(line, from, next);
    if text.len() % 2 != 0 || !text.iter().all(|b| b.is_ascii_hexdigit()) {
        return Err(Trouble::Hex.at(from));
    }
    if text.len() > 2 * BLOCK {
        return Err(Trouble::Long.at(from));
    }
    Ok(Data {
        text,
        hex: true,
        next,
    })
}

// The data that begins at `from`.
pub fn data_at(line: &[u8], from: usize) -> Result<Data<'_>, Fault> {
    let next = tokens::after(line, from);
    match tokens::byte_at(line, from) {
        b'"' => quoted(line, next),
        b'x' => hexadecimal(line, next),
        _ => Err(Trouble::Data.at(from)),
    }
}

// The value of a hexadecimal digit, and 0 for any other byte. A match, since the library's `to_digit` gives a `char`'s as a u32.
fn digit(b: u8) -> u8
    ensures { result ≤ 15 }
{
    match b {
        b'0'..=b'9' => b - b'0',
        b'a'..=b'f' => b - b'a' + 10,
        b'A'..=b'F' => b - b'A' + 10,
        _ => 0,
    }
}

// Fills a block from its start with the bytes that a text has, or that pairs of digits spell.
pub fn fill(block: &mut [u8], text: &[u8], hex: bool) {
    if hex {
        for (b, pair) in block.iter_mut().zip(text.chunks_exact(2)) {
            *b = digit(pair[0]) * 16 + digit(pair[1]);
        }
    } else {
        for (b, given) in block.iter_mut().zip(text) {
            *b = *given;
        }
    }
}
