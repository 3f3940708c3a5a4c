// The words of a line: bytes between spaces or tabs. Positions past the end of a line count as its end.

// The byte at i, and 0 past the end.
pub fn byte_at(line: &[u8], i: usize) -> u8 {
    line.get(i).copied().unwrap_or(0)
}

// The items from `from` up to `to`, as the bytes of a line; none where these are no positions of the list.
pub fn part<T>(items: &[T], from: usize, to: usize) -> &[T] {
    items.get(from..to).unwrap_or(&[])
}

// The position after i.
pub fn after(line: &[u8], i: usize) -> usize {
    i.saturating_add(1).min(line.len())
}

pub fn is_space(b: u8) -> bool {
    matches!(b, b'\t' | b' ')
}

// The first place from `from` on whose byte passes a test.
fn first_place<F: Fn(u8) -> bool>(line: &[u8], from: usize, test: F) -> usize
    requires { F.IsAlwaysCallable test }
{
    for i in from..line.len() {
        if test(line[i]) {
            return i;
        }
    }
    line.len()
}

// Where the next word begins, from `from` on.
pub fn word_start(line: &[u8], from: usize) -> usize {
    first_place(line, from, |b| !is_space(b))
}

// Where the word ends that has begun by `from`.
pub fn word_end(line: &[u8], from: usize) -> usize {
    first_place(line, from, is_space)
}

// The first place of a byte from `from` on.
pub fn find(line: &[u8], from: usize, b: u8) -> usize {
    first_place(line, from, |x| x == b)
}

// Whether a word is this one.
pub fn is_word(word: &[u8], name: &[u8]) -> bool {
    word == name
}

// A number with one more decimal digit.
fn extended(value: u32, b: u8) -> Option<u32> {
    match b {
        b'0'..=b'9' => u32::try_from(u64::from(value) * 10 + u64::from(b - b'0')).ok(),
        _ => None,
    }
}

// The decimal number that a word spells, where it is at most 4,294,967,295. (The library's `parse` also takes a sign.)
pub fn number_in(word: &[u8]) -> Option<u32> {
    if word.is_empty() {
        return None;
    }
    word.iter().try_fold(0u32, |value, b| extended(value, *b))
}

// The end of a line's text that starts at `from`: the next newline, or the end of the paper.
pub fn line_end(paper: &[u8], from: usize) -> usize {
    find(paper, from, b'\n')
}

// A line without the return before its newline.
pub fn trimmed(line: &[u8]) -> &[u8] {
    line.strip_suffix(b"\r").unwrap_or(line)
}
