// A fixed generator: the same numbers in every run.
use crate::cells;
use reference_board::board;

fn next(x: u32) -> u32 {
    ((x as u64 * 1664525 + 1013904223) % 4294967296) as u32
}

pub fn word(b: &mut [u32; board::SIZE]) -> u32 {
    let x = next(cells::get(b, cells::SEED));
    cells::set(b, cells::SEED, x);
    x
}

// A number below `most`; 0 where that is 0.
pub fn below(b: &mut [u32; board::SIZE], most: u32) -> u32 {
    let x = word(b) / 256;
    if most == 0 {
        return 0;
    }
    x % most
}
