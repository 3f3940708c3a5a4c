// A line of a paper, taken apart: the call, its numbers, its blocks and its keywords.
use crate::keywords::{Keyword, Keywords};
use crate::trouble::{Fault, Trouble};
use crate::{data, keywords, tokens};

#[derive(Clone, Copy, PartialEq, Eq, Debug)]
pub enum Call {
    Unknown,
    Format,
    Write,
    Drop,
    Read,
    Park,
    Recover,
    Show,
    Sectors,
    // The line that a backlog begins with, and an `end` where there is none to end.
    Backlog,
    End,
    // Lines in a backlog: its commits, its end, and any that does not belong there.
    BacklogWrite,
    BacklogDrop,
    BacklogEnd,
    BacklogOther,
}

#[derive(Clone, Copy, Default)]
pub struct Request {
    // The numbers of a call, as many as were taken: L and N, or the head, or the block to read. No list of options: each call would
    // have to look again at what `whole` has made sure of.
    pub first: u32,
    pub second: u32,
    pub taken: u32,
    // The blocks of a write or a drop that were taken.
    pub count: usize,
    pub keywords: Keywords,
    // Where the line goes on.
    pub at: usize,
}

// The most blocks in a line.
pub const MOST: usize = 128;

// More stores than any call makes.
const ENOUGH: u32 = u32::MAX;

impl Request {
    // The stores that the call may make: enough where no plug is given.
    pub fn stores(self) -> u32 {
        self.keywords.stores.unwrap_or(ENOUGH)
    }
}

// The call that a line asks for: none on a blank line, or in a comment, whose first word begins with #.
pub fn call_of(line: &[u8]) -> Option<Call> {
    let start = tokens::word_start(line, 0);
    match tokens::part(line, start, tokens::word_end(line, start)) {
        [] | [b'#', ..] => None,
        b"format" => Some(Call::Format),
        b"write" => Some(Call::Write),
        b"drop" => Some(Call::Drop),
        b"read" => Some(Call::Read),
        b"park" => Some(Call::Park),
        b"recover" => Some(Call::Recover),
        b"show" => Some(Call::Show),
        b"sectors" => Some(Call::Sectors),
        b"backlog" => Some(Call::Backlog),
        b"end" => Some(Call::End),
        _ => Some(Call::Unknown),
    }
}

// What a line in a backlog is.
pub fn call_in_backlog(line: &[u8]) -> Option<Call> {
    match call_of(line)? {
        Call::Write => Some(Call::BacklogWrite),
        Call::Drop => Some(Call::BacklogDrop),
        Call::End => Some(Call::BacklogEnd),
        _ => Some(Call::BacklogOther),
    }
}

// How many numbers come after a call's name.
fn wanted(call: Call) -> u32 {
    match call {
        Call::Format => 2,
        Call::Write | Call::Drop | Call::Read | Call::BacklogWrite | Call::BacklogDrop => 1,
        _ => 0,
    }
}

fn makes_stores(call: Call) -> bool {
    matches!(
        call,
        Call::Format | Call::Write | Call::Drop | Call::Park | Call::Recover | Call::Backlog
    )
}

fn takes_settings(call: Call) -> bool {
    matches!(call, Call::Format | Call::Recover)
}

// Which calls take a keyword.
fn takes(call: Call, keyword: Keyword) -> bool {
    match keyword {
        Keyword::Stores => makes_stores(call),
        _ => takes_settings(call),
    }
}

fn takes_blocks(call: Call) -> bool {
    matches!(
        call,
        Call::Write | Call::Drop | Call::BacklogWrite | Call::BacklogDrop
    )
}

// A keyword that a call does not take. In a backlog the plug is the first line's.
fn not_taken(call: Call, keyword: Keyword) -> Trouble {
    match (keyword, call) {
        (Keyword::Stores, Call::BacklogWrite | Call::BacklogDrop | Call::BacklogEnd) => {
            Trouble::BacklogStores
        }
        _ => Trouble::KeywordHere(keyword),
    }
}

// NAME=NUMBER, from `at` up to `end`.
fn take_keyword(
    word: &[u8],
    at: usize,
    end: usize,
    call: Call,
    keyword: Keyword,
    r: Request,
) -> Result<Request, Fault> {
    if !takes(call, keyword) {
        return Err(not_taken(call, keyword).at(at));
    }
    if r.keywords.value(keyword).is_some() {
        return Err(Trouble::KeywordTwice(keyword).at(at));
    }
    let value = keywords::value_in(word).ok_or(Trouble::Value(keyword).at(at))?;
    Ok(Request {
        keywords: r.keywords.with(keyword, value),
        at: end,
        ..r
    })
}

// Whether a word of a call that takes settings has the form of a keyword.
fn is_unknown(word: &[u8], call: Call) -> bool {
    takes_settings(call) && word.contains(&b'=')
}

// One of the numbers after a call's name.
fn take_number(word: &[u8], at: usize, end: usize, r: Request) -> Result<Request, Fault> {
    let value = tokens::number_in(word).ok_or(Trouble::Number.at(at))?;
    if r.taken == 0 {
        return Ok(Request {
            first: value,
            taken: 1,
            at: end,
            ..r
        });
    }
    Ok(Request {
        second: value,
        taken: 2,
        at: end,
        ..r
    })
}

// A block's number goes into the list.
fn take_block(
    r: Request,
    at: usize,
    end: usize,
    block: u32,
    blocks: &mut [u32],
) -> Result<Request, Fault> {
    let count = r.count;
    if count >= blocks.len() {
        return Err(Trouble::Many.at(at));
    }
    blocks[count] = block;
    Ok(Request {
        count: count + 1,
        at: end,
        ..r
    })
}

// B of a drop.
fn take_drop(
    word: &[u8],
    at: usize,
    end: usize,
    r: Request,
    blocks: &mut [u32],
) -> Result<Request, Fault> {
    let block = tokens::number_in(word).ok_or(Trouble::Number.at(at))?;
    take_block(r, at, end, block, blocks)
}

// The data of the block that is next in the list, which has so many.
fn fill_block(bytes: &mut [u8], count: usize, text: &[u8], hex: bool) {
    if count < MOST {
        let first = count * data::BLOCK;
        if let Some(block) = bytes.get_mut(first..first + data::BLOCK) {
            data::fill(block, text, hex);
        }
    }
}

// B=DATA of a write.
fn take_write(
    line: &[u8],
    at: usize,
    r: Request,
    blocks: &mut [u32],
    bytes: &mut [u8],
) -> Result<Request, Fault> {
    let equals = tokens::find(line, at, b'=');
    let block = tokens::number_in(tokens::part(line, at, equals)).ok_or(Trouble::Block.at(at))?;
    let found = data::data_at(line, tokens::after(line, equals))?;
    fill_block(bytes, r.count, found.text, found.hex);
    take_block(r, at, found.next, block, blocks)
}

// A word that is no keyword: a number, a block, or nothing that this call takes.
fn take_other(
    line: &[u8],
    at: usize,
    end: usize,
    call: Call,
    r: Request,
    blocks: &mut [u32],
    bytes: &mut [u8],
) -> Result<Request, Fault> {
    let word = tokens::part(line, at, end);
    if is_unknown(word, call) {
        return Err(Trouble::Keyword.at(at));
    }
    if r.taken < wanted(call) {
        return take_number(word, at, end, r);
    }
    // A match: a closure for what comes next would be chosen by the same one.
    match call {
        Call::Write | Call::BacklogWrite => take_write(line, at, r, blocks, bytes),
        Call::Drop | Call::BacklogDrop => take_drop(word, at, end, r, blocks),
        _ => Err(Trouble::More.at(at)),
    }
}

// The word at `at`, after a call's name.
fn take_word(
    line: &[u8],
    at: usize,
    call: Call,
    r: Request,
    blocks: &mut [u32],
    bytes: &mut [u8],
) -> Result<Request, Fault> {
    let end = tokens::word_end(line, at);
    let word = tokens::part(line, at, end);
    match keywords::keyword_of(word) {
        Some(keyword) => take_keyword(word, at, end, call, keyword, r),
        None => take_other(line, at, end, call, r, blocks, bytes),
    }
}

// The words after a call's name, from `from` on. Each takes a byte at least, so the bytes of the line are turns enough.
fn take_words(
    line: &[u8],
    from: usize,
    call: Call,
    blocks: &mut [u32],
    bytes: &mut [u8],
) -> Result<Request, Fault> {
    let mut r = Request {
        at: from,
        ..Request::default()
    };
    for _ in 0..line.len() {
        let at = tokens::word_start(line, r.at);
        if at >= line.len() {
            break;
        }
        r = take_word(line, at, call, r, blocks, bytes)?;
    }
    Ok(r)
}

// A request whose words do not end too soon.
fn whole(line: &[u8], call: Call, r: Request) -> Result<Request, Fault> {
    if r.taken < wanted(call) {
        return Err(Trouble::FewNumbers.at(line.len()));
    }
    if takes_blocks(call) && r.count == 0 {
        return Err(Trouble::FewBlocks.at(line.len()));
    }
    Ok(r)
}

// A line whose first word is turned back.
pub fn turned_back(line: &[u8], trouble: Trouble) -> Fault {
    trouble.at(tokens::word_start(line, 0))
}

// What a line asks of a call. The blocks and their bytes go into the lists.
pub fn request_of(
    line: &[u8],
    call: Call,
    blocks: &mut [u32],
    bytes: &mut [u8],
) -> Result<Request, Fault> {
    match call {
        Call::Unknown => Err(turned_back(line, Trouble::Call)),
        Call::End => Err(turned_back(line, Trouble::End)),
        Call::BacklogOther => Err(turned_back(line, Trouble::BacklogLine)),
        _ => {
            let from = tokens::word_end(line, tokens::word_start(line, 0));
            let r = take_words(line, from, call, blocks, bytes)?;
            whole(line, call, r)
        }
    }
}

// What a line asks of a call that names no blocks.
pub fn request_without_blocks(line: &[u8], call: Call) -> Result<Request, Fault> {
    request_of(line, call, &mut [0], &mut [0])
}
