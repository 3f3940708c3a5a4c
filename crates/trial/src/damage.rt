// Damaged images and damaged tables: both implementations make the same of them.
use crate::copies::count_on_copy;
use crate::cuts;
use reference_board::board;
use trial_board::stand::Volume;
use trial_board::{cells, chance, stand};
use trial_choice::{choice, damage, settings};

// What is damaged.
#[derive(Clone, Copy, PartialEq, Eq)]
pub enum Damaged {
    Image,
    Memory,
}

impl Damaged {
    pub fn family(self) -> &'static [u8] {
        match self {
            Damaged::Image => b"damaged images",
            Damaged::Memory => b"damaged memory",
        }
    }
}

// A recovery of the image with one to three damages, cut or not, and two calls on what it leaves.
fn recover_damaged(b: &mut [u32; board::SIZE]) {
    count_on_copy(b, |c| {
        let times = chance::below(c, 3);
        damage::damage_more(c, board::plus(times, 1));
        recover_some(c);
        call_some(c);
    });
}

fn recover_some(b: &mut [u32; board::SIZE]) {
    if chance::below(b, 4) == 0 {
        let stores = chance::below(b, 3);
        cuts::recover(b, stores);
    } else {
        cuts::recover(b, stand::ENOUGH);
    }
}

fn call_some(b: &mut [u32; board::SIZE]) {
    choice::choose(b);
    cuts::perform(b);
    choice::choose(b);
    cuts::perform(b);
}

// Two calls with one damage in memory, and with wrong settings at times.
fn call_damaged(b: &mut [u32; board::SIZE]) {
    count_on_copy(b, |c| {
        damage::damage_memory(c);
        settings::spoil_some(c);
        call_some(c);
    });
}

fn grow(b: &mut [u32; board::SIZE], damaged: Damaged) {
    choice::choose(b);
    cuts::perform(b);
    match damaged {
        Damaged::Image => recover_damaged(b),
        Damaged::Memory => call_damaged(b),
    }
}

fn grow_more(b: &mut [u32; board::SIZE], times: u32, damaged: Damaged) {
    for _ in 0..times {
        grow(b, damaged);
    }
}

// A history of so many calls, with a damaged copy of what each leaves: of the image, or of memory.
pub fn run(b: &mut [u32; board::SIZE], volume: Volume, spread: u32, calls: u32, damaged: Damaged) {
    cells::set(b, cells::SPREAD, spread);
    stand::stand_format(b, volume);
    cuts::perform(b);
    grow_more(b, calls, damaged);
}
