// Calls that stand on the board, and memory as a plug leaves it.
use crate::cells;
use reference_board::board;
use reference_board::kinds::Call;

// More stores than any call makes.
pub const ENOUGH: u32 = 100000;

// A volume and the drive that it is formatted for: n sectors on so many tracks.
#[derive(Clone, Copy)]
pub struct Volume {
    pub l: u32,
    pub n: u32,
    pub tracks: u32,
    pub switch: u32,
}

impl Volume {
    pub fn on(l: u32, n: u32, tracks: u32, switch: u32) -> Volume {
        Volume {
            l,
            n,
            tracks,
            switch,
        }
    }

    // On one track.
    pub fn plain(l: u32, n: u32) -> Volume {
        Volume::on(l, n, 1, 0)
    }

    pub fn per_track(self) -> u32 {
        if self.tracks == 0 {
            return 0;
        }
        self.n / self.tracks
    }
}

// Memory as a plug leaves it: nothing in state and tables is worth anything.
pub fn scramble(b: &mut [u32; board::SIZE]) {
    let l = cells::get(b, board::BLOCK_COUNT);
    let p = board::pieces(l);
    board::fill(b, board::STATE_N, board::STATE_WORDS, 1);
    board::fill(b, board::LENT, l, 3_735_928_559);
    board::fill(b, board::LENT + board::PLACES, p, 7);
    board::fill(b, board::LENT + board::NUMBERS, p, 9);
    board::fill(b, board::LENT + board::USED, board::USED_WORDS, 1);
}

// The lengths of a volume of l blocks in n sectors.
fn put_lengths(b: &mut [u32; board::SIZE], l: u32, n: u32) {
    cells::set(b, board::BLOCK_COUNT, l);
    cells::set(b, board::IMAGE_LENGTH, board::bytes(n));
    cells::set(b, board::MAP_LENGTH, l);
    cells::set(b, board::PLACES_LENGTH, board::pieces(l));
    cells::set(b, board::NUMBERS_LENGTH, board::pieces(l));
    cells::set(b, board::USED_LENGTH, board::used_bytes(n));
}

// The settings that a format or a recover is given from here on.
pub fn put_settings(b: &mut [u32; board::SIZE], per_track: u32, tracks: u32, switch: u32) {
    cells::set(b, board::GIVEN_PER_TRACK, per_track);
    cells::set(b, board::GIVEN_TRACKS, tracks);
    cells::set(b, board::GIVEN_SWITCH, switch);
}

// Stands a format of such a volume on the board.
pub fn stand_format(b: &mut [u32; board::SIZE], volume: Volume) {
    put_lengths(b, volume.l, volume.n);
    put_settings(b, volume.per_track(), volume.tracks, volume.switch);
    board::put_call(b, Call::Format);
    cells::set(b, board::BYTES_LENGTH, 0);
    cells::set(b, board::ALLOWED, ENOUGH);
}

fn raise_number(b: &mut [u32; board::SIZE], q: u32, more: u32) {
    let k = board::get(b, board::LENT + board::PLACES, q);
    let number = board::plus(board::get(b, board::LENT + board::NUMBERS, q), more);
    board::put_word(b, board::IMAGE, k, 2, number);
    cells::balance(b, k);
    board::put(b, board::LENT + board::NUMBERS, q, number);
}

// A volume that was just formatted gets numbers that are greater by so much: in its live map sectors, in the tables and in the state.
pub fn raise_numbers(b: &mut [u32; board::SIZE], more: u32) {
    let p = board::pieces(cells::get(b, board::STATE_L));
    cells::add(b, board::NUMBER, more);
    for q in 0..p {
        raise_number(b, q, more);
    }
}
