// What the code is lent is made from the board, and what it leaves is held to what stands there afterwards.
#![tactic(auto)]

ghost use Rattle.std.specs.Prelude.{◌≤◌};

use geometry::{Drive, Geometry, Settings};
use lending::{Memory, Tables};
use reference_board::kinds::Call;
use reference_board::{board, kinds};
use state::{BatchOutcome, Outcome, Phase, State};
use trial_board::cells;
use trial_board::difference::{Difference, ensure};

// What there is room for in the arrays that are lent: the image's bytes, the map's words, those of the other two tables, the used map's bytes, the
// blocks of a call, and their bytes.
pub const IMAGE_BYTES: usize = board::N_MOST as usize * 512;

pub const MAP_WORDS: usize = board::L_MOST as usize;

pub const PIECES: usize = board::P_MOST as usize;

pub const USED_BYTES: usize = board::USED_WORDS as usize / 8;

pub const BLOCKS: usize = board::COUNT_MOST as usize;

pub const DATA_BYTES: usize = BLOCKS * 512;

// And for a batch: the words of its commits and of its answers.
pub const COMMIT_WORDS: usize = board::COMMITS_MOST as usize * 4;

pub const ANSWER_WORDS: usize = board::COMMITS_MOST as usize * 5;

// No From between the board's types and the code's, here and below: both are of other crates.
fn phase_of(b: &[u32; board::SIZE]) -> Phase {
    match board::phase(b) {
        kinds::Phase::Running => Phase::Running,
        kinds::Phase::Parked => Phase::Parked,
        kinds::Phase::Cut => Phase::Cut,
    }
}

// The phase as it stands on the board.
fn on_board(phase: Phase) -> kinds::Phase {
    match phase {
        Phase::Running => kinds::Phase::Running,
        Phase::Parked => kinds::Phase::Parked,
        Phase::Cut => kinds::Phase::Cut,
    }
}

// The drive of three settings, of the state or given.
fn drive_of(b: &[u32; board::SIZE], settings: u32) -> Drive {
    Drive {
        sectors: board::get(b, settings, 0),
        tracks: board::get(b, settings, 1),
        switch: board::get(b, settings, 2),
    }
}

// What a format or a recover is given.
pub fn settings_of(b: &[u32; board::SIZE]) -> Settings {
    let drive = drive_of(b, board::GIVEN_PER_TRACK);
    Settings {
        l: board::get(b, board::BLOCK_COUNT, 0),
        drive,
    }
}

pub fn state_of(b: &[u32; board::SIZE]) -> State {
    let geometry = Geometry {
        n: board::get(b, board::STATE_N, 0),
        l: board::get(b, board::STATE_L, 0),
    };
    let drive = drive_of(b, board::PER_TRACK);
    State {
        geometry,
        tail: board::get(b, board::TAIL, 0),
        number: board::get(b, board::NUMBER, 0),
        phase: phase_of(b),
        drive,
    }
}

fn put_byte(bytes: &mut [u8], at: usize, x: u8) {
    if at < bytes.len() {
        bytes[at] = x;
    }
}

// A whole word has one test for its four bytes, as most of what a trial does is to fill an image.
fn put_bytes(bytes: &mut [u8], i: u32, x: u32) {
    let at = i as usize * 4;
    let four = x.to_le_bytes();
    if at + 3 < bytes.len() {
        bytes[at..at + 4].copy_from_slice(&four);
    } else {
        put_byte(bytes, at, four[0]);
        put_byte(bytes, at + 1, four[1]);
        put_byte(bytes, at + 2, four[2]);
        put_byte(bytes, at + 3, four[3]);
    }
}

// The bytes of `count` words of the board. With `load_words` it has the loop in common, and no more.
pub fn load_bytes(bytes: &mut [u8], b: &[u32; board::SIZE], from: u32, count: u32) {
    for i in 0..count {
        put_bytes(bytes, i, board::get(b, from, i));
    }
}

fn is_byte(bytes: &[u8], at: usize, x: u8) -> bool {
    at < bytes.len() && bytes[at] == x
}

fn is_word(bytes: &[u8], i: u32, x: u32) -> bool {
    let at = i as usize * 4;
    at + 3 < bytes.len()
        && u32::from_le_bytes([bytes[at], bytes[at + 1], bytes[at + 2], bytes[at + 3]]) == x
}

// Held to the board word by word, here and below, as a count of its words may go past the end of an array.
fn same_bytes(bytes: &[u8], b: &[u32; board::SIZE], from: u32, count: u32) -> bool {
    (0..count).all(|i| is_word(bytes, i, board::get(b, from, i)))
}

fn put_word(words: &mut [u32], i: u32, x: u32) {
    let at = i as usize;
    if at < words.len() {
        words[at] = x;
    }
}

pub fn load_words(words: &mut [u32], b: &[u32; board::SIZE], from: u32, count: u32) {
    for i in 0..count {
        put_word(words, i, board::get(b, from, i));
    }
}

fn word_at(words: &[u32], i: u32) -> u32 {
    let at = i as usize;
    if at < words.len() {
        return words[at];
    }
    0
}

fn same_words(words: &[u32], b: &[u32; board::SIZE], from: u32, count: u32) -> bool {
    (0..count).all(|i| word_at(words, i) == board::get(b, from, i))
}

fn bit(b: &[u32; board::SIZE], j: u32, i: u32) -> u8
    ensures { result ≤ 1 }
{
    let k = board::plus(board::plus(j, j), board::plus(j, j));
    if board::get(
        b,
        board::LENT + board::USED,
        board::plus(board::plus(k, k), i),
    ) == 0
    {
        return 0;
    }
    1
}

// Byte j of the used map, a bit for each of eight words.
fn used_byte(b: &[u32; board::SIZE], j: u32) -> u8 {
    let low = bit(b, j, 0) + 2 * bit(b, j, 1) + 4 * bit(b, j, 2) + 8 * bit(b, j, 3);
    let high = bit(b, j, 4) + 2 * bit(b, j, 5) + 4 * bit(b, j, 6) + 8 * bit(b, j, 7);
    low + 16 * high
}

pub fn load_used(used: &mut [u8], b: &[u32; board::SIZE], count: u32) {
    for j in 0..count {
        put_byte(used, j as usize, used_byte(b, j));
    }
}

fn same_used(used: &[u8], b: &[u32; board::SIZE], count: u32) -> bool {
    (0..count).all(|j| is_byte(used, j as usize, used_byte(b, j)))
}

// The image and the tables that stand on the board.
pub fn load_volume(m: &mut Memory<'_>, b: &[u32; board::SIZE]) {
    load_bytes(m.image, b, board::IMAGE, cells::image_words(b));
    load_words(m.map, b, board::LENT, board::get(b, board::MAP_LENGTH, 0));
    load_words(m.places, b, board::LENT + board::PLACES, board::P_MOST);
    load_words(m.numbers, b, board::LENT + board::NUMBERS, board::P_MOST);
    load_used(m.used, b, board::USED_WORDS / 8);
}

// A length that stands on the board, where it is at most `most`, and otherwise 0.
pub fn length(b: &[u32; board::SIZE], cell: u32, most: usize) -> usize
    ensures { result ≤ most }
{
    let length = board::get(b, cell, 0) as usize;
    if length <= most {
        return length;
    }
    0
}

// The part of an array that has the length on the board.
pub fn part_in<'a, T>(items: &'a mut [T], b: &[u32; board::SIZE], cell: u32) -> &'a mut [T] {
    let end = length(b, cell, items.len());
    &mut items[..end]
}

// The bytes that go with the call: a read's buffer, or a write's.
pub fn load_data(bytes: &mut [u8], b: &[u32; board::SIZE]) {
    if board::call(b) == Call::Read {
        load_bytes(bytes, b, board::OUT, 128);
    } else {
        load_bytes(
            bytes,
            b,
            board::DATA,
            board::get(b, board::BYTES_LENGTH, 0) / 4,
        );
    }
}

// The bytes of a batch: whole words, and the rest of one.
pub fn load_backlog(bytes: &mut [u8], b: &[u32; board::SIZE]) {
    let words = board::get(b, board::BACKLOG_BYTES, 0) / 4;
    load_bytes(bytes, b, board::BACKLOG_DATA, board::plus(words, 1));
}

fn same_out(bytes: &[u8], b: &[u32; board::SIZE]) -> bool {
    board::call(b) != Call::Read || same_bytes(bytes, b, board::OUT, 128)
}

fn same_drive(d: Drive, b: &[u32; board::SIZE]) -> bool {
    d.sectors == board::get(b, board::PER_TRACK, 0)
        && d.tracks == board::get(b, board::TRACKS, 0)
        && d.switch == board::get(b, board::SWITCH, 0)
}

fn same_state(s: State, b: &[u32; board::SIZE]) -> bool {
    let g = s.geometry;
    let d = s.drive;
    let phase = s.phase;
    same_drive(d, b)
        && g.n == board::get(b, board::STATE_N, 0)
        && g.l == board::get(b, board::STATE_L, 0)
        && s.tail == board::get(b, board::TAIL, 0)
        && s.number == board::get(b, board::NUMBER, 0)
        && on_board(phase) as u32 == board::get(b, board::PHASE, 0)
}

// Whether a cell of the board has what the code says.
fn same(x: u32, b: &[u32; board::SIZE], cell: u32, what: Difference) -> Result<(), Difference> {
    ensure(x == board::get(b, cell, 0), what)
}

// Holds an answer to the board's.
pub fn compare_answers(done: Outcome, b: &[u32; board::SIZE]) -> Result<(), Difference> {
    let answer = done.answer;
    let state = done.state;
    same(answer.number(), b, board::ANSWER, Difference::Answers)?;
    same(answer.stores(), b, board::STORES, Difference::Stores)?;
    same(answer.skipped(), b, board::SKIPPED, Difference::Skipped)?;
    same(answer.way(), b, board::WAY, Difference::Ways)?;
    same(
        answer.sectors_read(),
        b,
        board::READS,
        Difference::SectorsRead,
    )?;
    ensure(same_state(state, b), Difference::States)
}

// Holds a batch to the board's, which has no way and no sectors read: the answer to the call as a whole, how many commits were answered,
// and the words of their answers.
pub fn compare_batches(
    done: BatchOutcome,
    b: &[u32; board::SIZE],
    answers: &[u32],
) -> Result<(), Difference> {
    let cost = done.cost;
    let state = done.state;
    same(
        answer::verdict_number(done.verdict),
        b,
        board::ANSWER,
        Difference::Answers,
    )?;
    same(cost.stores, b, board::STORES, Difference::Stores)?;
    same(cost.skipped, b, board::SKIPPED, Difference::Skipped)?;
    same(
        done.answered,
        b,
        board::COMMITS_ANSWERED,
        Difference::CommitsAnswered,
    )?;
    ensure(same_state(state, b), Difference::States)?;
    ensure(
        same_words(answers, b, board::ANSWERS, board::COMMITS_MOST * 5),
        Difference::CommitAnswers,
    )
}

// Holds tables to those lent on the board.
fn compare_tables(b: &[u32; board::SIZE], t: &Tables<'_>) -> Result<(), Difference> {
    let l = board::get(b, board::MAP_LENGTH, 0);
    let p = board::get(b, board::PLACES_LENGTH, 0);
    let q = board::get(b, board::NUMBERS_LENGTH, 0);
    let u = board::get(b, board::USED_LENGTH, 0);
    ensure(same_words(t.map, b, board::LENT, l), Difference::Maps)?;
    ensure(
        same_words(t.places, b, board::LENT + board::PLACES, p),
        Difference::Places,
    )?;
    ensure(
        same_words(t.numbers, b, board::LENT + board::NUMBERS, q),
        Difference::Numbers,
    )?;
    ensure(same_used(t.used, b, u), Difference::UsedMaps)
}

// Holds a volume in memory to the board's: its image and its tables.
pub fn compare_volumes(b: &[u32; board::SIZE], m: &Memory<'_>) -> Result<(), Difference> {
    ensure(
        same_bytes(m.image(), b, board::IMAGE, cells::image_words(b)),
        Difference::Images,
    )?;
    compare_tables(b, &m.tables())
}

// Holds it to the board's, with the bytes of a read.
pub fn compare_memory(
    b: &[u32; board::SIZE],
    m: &Memory<'_>,
    bytes: &[u8],
) -> Result<(), Difference> {
    ensure(same_out(bytes, b), Difference::BytesRead)?;
    compare_volumes(b, m)
}
