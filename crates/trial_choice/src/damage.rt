// Random damage to an image, or to memory.
use reference_board::board;
use trial_board::{cells, chance};

fn sectors(b: &[u32; board::SIZE]) -> u32 {
    cells::get(b, board::IMAGE_LENGTH) / 512
}

fn any_sector(b: &mut [u32; board::SIZE]) -> u32 {
    chance::below(b, sectors(b))
}

// A word of a sector: anything.
fn spoil(b: &mut [u32; board::SIZE], k: u32) {
    let i = chance::below(b, 128);
    let x = chance::word(b);
    board::put_word(b, board::IMAGE, k, i, x);
}

// A field, a branch or one of the first entries, with the sum balanced again.
fn change_field(b: &mut [u32; board::SIZE], k: u32) {
    let i = chance::below(b, 34);
    let x = chance::below(b, 14);
    board::put_word(b, board::IMAGE, k, board::plus(i, 2), x);
    cells::balance(b, k);
}

// Member for closing, and closing for member.
fn change_kind(b: &mut [u32; board::SIZE], k: u32) {
    let kind = board::word(b, board::IMAGE, k, 5);
    board::put_word(b, board::IMAGE, k, 5, board::minus(1, kind));
    cells::balance(b, k);
}

fn change_number(b: &mut [u32; board::SIZE], k: u32) {
    let number = board::word(b, board::IMAGE, k, 2);
    let more = chance::below(b, 5);
    board::put_word(
        b,
        board::IMAGE,
        k,
        2,
        board::plus(number, board::minus(more, 2)),
    );
    cells::balance(b, k);
}

// One more branch, to any sector.
fn add_branch(b: &mut [u32; board::SIZE], k: u32) {
    let count = board::word(b, board::IMAGE, k, 6);
    let target = any_sector(b);
    board::put_word(b, board::IMAGE, k, 6, board::plus(count, 1));
    board::put_word(b, board::IMAGE, k, board::plus(8, count), target);
    cells::balance(b, k);
}

fn double(b: &mut [u32; board::SIZE], k: u32) {
    let other = any_sector(b);
    board::copy_sector(b, board::IMAGE, k, board::IMAGE, other);
}

// A park record that names sector k and, mostly, its number.
fn park_at(b: &mut [u32; board::SIZE], k: u32) {
    let number = board::word(b, board::IMAGE, k, 2);
    let more = chance::below(b, 4) / 3;
    board::fill_sector(b, board::IMAGE, 0, 0);
    board::put_word(b, board::IMAGE, 0, 0, 827_346_006);
    board::put_word(b, board::IMAGE, 0, 2, board::plus(number, more));
    board::put_word(b, board::IMAGE, 0, 3, k);
    cells::balance(b, 0);
}

fn damage_sector(b: &mut [u32; board::SIZE], k: u32) {
    match chance::below(b, 9) {
        0 => spoil(b, k),
        1 => change_field(b, k),
        2 => change_kind(b, k),
        3 => change_number(b, k),
        4 => add_branch(b, k),
        5 => double(b, k),
        6 => board::fill_sector(b, board::IMAGE, k, 0),
        _ => park_at(b, k),
    }
}

fn damage(b: &mut [u32; board::SIZE]) {
    let k = any_sector(b);
    damage_sector(b, k);
}

pub fn damage_more(b: &mut [u32; board::SIZE], times: u32) {
    for _ in 0..times {
        damage(b);
    }
}

// The bits of a used map, with those after the last sector.
fn used_bits(n: u32) -> u32 {
    board::plus(n, 7) / 8 * 8
}

// A word of the state or of a table: small, or a sector's number, or just past those.
pub fn damage_memory(b: &mut [u32; board::SIZE]) {
    let l = cells::get(b, board::BLOCK_COUNT);
    let n = sectors(b);
    let x = chance::below(b, board::plus(n, 4));
    match chance::below(b, 6) {
        0 => damage_at(b, board::LENT, l, x),
        1 => damage_at(b, board::LENT, l, board::plus(x, 2_147_483_648)),
        2 => damage_at(b, board::LENT + board::PLACES, board::pieces(l), x),
        3 => damage_at(b, board::LENT + board::NUMBERS, board::pieces(l), x),
        4 => damage_at(b, board::LENT + board::USED, used_bits(n), x % 2),
        _ => damage_at(b, board::STATE_N, 4, x),
    }
}

// One of `count` words from a cell on.
fn damage_at(b: &mut [u32; board::SIZE], from: u32, count: u32, x: u32) {
    let i = chance::below(b, count);
    board::put(b, from, i, x);
}
