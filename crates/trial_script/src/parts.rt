// The words of a line. A count beside the line says which word, from 0; it is no length.
use paper::tokens;

// Where word `count` of a line is looked for, from 0.
fn skip(line: &[u8], count: u32) -> usize {
    (0..count).fold(0, |at, _| {
        tokens::word_end(line, tokens::word_start(line, at))
    })
}

pub fn word(line: &[u8], count: u32) -> &[u8] {
    let start = tokens::word_start(line, skip(line, count));
    tokens::part(line, start, tokens::word_end(line, start))
}

// Word `count` as a number; 0 where there is none, as in a call without an argument. (The form of the line is checked before.)
pub fn number(line: &[u8], count: u32) -> u32 {
    tokens::number_in(word(line, count)).unwrap_or(0)
}

pub fn has_word(line: &[u8], count: u32) -> bool {
    word(line, count).len() > 0
}

pub fn is_number(line: &[u8], count: u32) -> bool {
    tokens::number_in(word(line, count)).is_some()
}

// The line without its first word.
pub fn rest(line: &[u8]) -> &[u8] {
    tokens::part(line, skip(line, 1), line.len())
}

// Nothing to carry out: no word at all, or a comment.
pub fn is_passed(line: &[u8]) -> bool {
    !has_word(line, 0) || tokens::byte_at(word(line, 0), 0) == b'#'
}
