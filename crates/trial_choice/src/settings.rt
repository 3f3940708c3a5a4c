// Settings of a drive for recoveries, right ones and wrong ones.
use reference_board::board;
use trial_board::stand::Volume;
use trial_board::{cells, chance, stand};

fn divides(d: u32, n: u32) -> bool {
    d != 0 && n % d == 0
}

// The greatest divisor of n up to `most`.
fn divisor(n: u32, most: u32) -> u32 {
    (2..board::plus(most, 1))
        .rev()
        .find(|d| divides(*d, n))
        .unwrap_or(1)
}

// How many tracks n sectors are dealt out to.
fn choose_tracks(b: &mut [u32; board::SIZE], n: u32) -> u32 {
    let most = chance::below(b, n.min(256));
    divisor(n, board::plus(most, 1))
}

// None, one, a few, as much as a revolution or more, or anything.
fn choose_switch(b: &mut [u32; board::SIZE], per_track: u32) -> u32 {
    let x = chance::below(b, 256);
    match chance::below(b, 5) {
        0 => 0,
        1 => 1,
        2 => x % 8,
        3 => board::plus(per_track, x % 8).min(255),
        _ => x,
    }
}

fn sectors(b: &[u32; board::SIZE]) -> u32 {
    cells::get(b, board::IMAGE_LENGTH) / 512
}

// Other settings than the format's.
fn give_other(b: &mut [u32; board::SIZE]) {
    let n = sectors(b);
    let tracks = choose_tracks(b, n);
    let per_track = Volume::on(0, n, tracks, 0).per_track();
    let switch = choose_switch(b, per_track);
    stand::put_settings(b, per_track, tracks, switch);
}

fn give_own(b: &mut [u32; board::SIZE]) {
    let tracks = cells::get(b, cells::OWN_TRACKS);
    let switch = cells::get(b, cells::OWN_SWITCH);
    let per_track = Volume::on(0, sectors(b), tracks, 0).per_track();
    stand::put_settings(b, per_track, tracks, switch);
}

// From here on every second recovery is given other settings than the volume's format.
pub fn vary(b: &mut [u32; board::SIZE], volume: Volume) {
    cells::set(b, cells::VARIED, 1);
    cells::set(b, cells::OWN_TRACKS, volume.tracks);
    cells::set(b, cells::OWN_SWITCH, volume.switch);
}

fn give_varied(b: &mut [u32; board::SIZE]) {
    if chance::below(b, 2) == 0 {
        give_own(b);
    } else {
        give_other(b);
    }
}

// Right settings for a recovery.
pub fn give(b: &mut [u32; board::SIZE]) {
    if cells::get(b, cells::VARIED) != 0 {
        give_varied(b);
    }
}

// Settings for a recovery that may be refused: every eighth are wrong, where they are varied.
pub fn give_any(b: &mut [u32; board::SIZE]) {
    give(b);
    if cells::get(b, cells::VARIED) != 0 && chance::below(b, 8) == 0 {
        spoil(b, board::GIVEN_PER_TRACK);
    }
}

// Makes settings wrong, of the state or given: one is out of range, or the tracks hold more than N sectors.
fn spoil(b: &mut [u32; board::SIZE], settings: u32) {
    match chance::below(b, 7) {
        0 => board::put(b, settings, 0, 0),
        1 => board::put(b, settings, 0, 65537),
        2 => board::put(b, settings, 1, 0),
        3 => board::put(b, settings, 1, 257),
        4 => board::put(b, settings, 2, 256),
        5 => cells::add_one(b, settings, 0),
        _ => cells::add_one(b, settings, 1),
    }
}

// Every eighth time the settings in the state are wrong, every eighth time those given.
pub fn spoil_some(b: &mut [u32; board::SIZE]) {
    match chance::below(b, 8) {
        0 => spoil(b, board::PER_TRACK),
        1 => spoil(b, board::GIVEN_PER_TRACK),
        _ => {}
    }
}
