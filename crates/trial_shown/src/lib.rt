// What the code reads of a volume, held to the plain disk.
#![tactic(auto)]

use lending::Memory;
use paper::tokens;
use reference_board::board;
use state::State;
use trial_board::cells;
use trial_board::difference::Difference;

fn word_at(out: &[u8], i: u32) -> u32 {
    let at = i as usize * 4;
    words::word_of(
        tokens::byte_at(out, at),
        tokens::byte_at(out, at + 1),
        tokens::byte_at(out, at + 2),
        tokens::byte_at(out, at + 3),
    )
}

fn is_content(out: &[u8], seed: u32, l: u32) -> bool {
    (0..128u32).all(|i| word_at(out, i) == trial_disk::content(seed, l, i))
}

// Whether a read of the block is accepted and gives the plain disk's.
fn shows_block(b: &[u32; board::SIZE], s: State, m: &Memory<'_>, block: u32) -> bool {
    let mut out = [255u8; 512];
    let done = read::read(s, m.image(), &m.tables(), block, &mut out);
    let answer = done.answer;
    answer.number() == 0 && is_content(&out, board::get(b, cells::DISK, block), s.geometry.l)
}

// Whether a block is one of those that are written, or the last.
fn is_chosen(block: u32, spread: u32, l: u32) -> bool {
    board::plus(block, 1) == l || spread == 0 || block % spread == 0
}

fn shows_blocks(b: &[u32; board::SIZE], s: State, m: &Memory<'_>, spread: u32) -> bool {
    let l = s.geometry.l;
    (0..l)
        .filter(|block| is_chosen(*block, spread, l))
        .all(|block| shows_block(b, s, m, block))
}

fn shows_lent(b: &[u32; board::SIZE], m: &mut Memory<'_>, spread: u32) -> bool {
    let part = Memory {
        image: trial_lent::part_in(&mut *m.image, b, board::IMAGE_LENGTH),
        map: trial_lent::part_in(&mut *m.map, b, board::MAP_LENGTH),
        places: trial_lent::part_in(&mut *m.places, b, board::PLACES_LENGTH),
        numbers: trial_lent::part_in(&mut *m.numbers, b, board::NUMBERS_LENGTH),
        used: trial_lent::part_in(&mut *m.used, b, board::USED_LENGTH),
    };
    shows_blocks(b, trial_lent::state_of(b), &part, spread)
}

// Fills what is lent from the board, and compares. The arrays come from the caller: of one that is made where it is lent the check would count the elements.
fn shows_loaded(
    b: &[u32; board::SIZE],
    image: &mut [u8; trial_lent::IMAGE_BYTES],
    map: &mut [u32; trial_lent::MAP_WORDS],
    places: &mut [u32; trial_lent::PIECES],
    numbers: &mut [u32; trial_lent::PIECES],
    used: &mut [u8; trial_lent::USED_BYTES],
    spread: u32,
) -> bool {
    let mut m = Memory {
        image,
        map,
        places,
        numbers,
        used,
    };
    trial_lent::load_volume(&mut m, b);
    shows_lent(b, &mut m, spread)
}

// Whether the code's reads give the plain disk's blocks: every `spread`-th, or all for 0.
pub fn shows(b: &[u32; board::SIZE], spread: u32) -> bool {
    let mut image = [0u8; trial_lent::IMAGE_BYTES];
    let mut map = [0u32; trial_lent::MAP_WORDS];
    let mut places = [0u32; trial_lent::PIECES];
    let mut numbers = [0u32; trial_lent::PIECES];
    let mut used = [0u8; trial_lent::USED_BYTES];
    shows_loaded(
        b,
        &mut image,
        &mut map,
        &mut places,
        &mut numbers,
        &mut used,
        spread,
    )
}

// How many blocks are read for a spread.
fn chosen_count(l: u32, spread: u32) -> u32 {
    if spread == 0 {
        return l;
    }
    board::plus(l / spread, 1)
}

// Holds what the volume shows to the plain disk.
pub fn compare(b: &mut [u32; board::SIZE], spread: u32) {
    let l = cells::get(b, board::BLOCK_COUNT);
    let same = shows(b, spread);
    cells::add(b, cells::BLOCKS_READ, chosen_count(l, spread));
    cells::hold(b, same, Difference::PlainDisk);
}
