// The calls on the volume, and their answers.
ghost use Rattle.std.specs.Prelude.{◌≡◌, ◌≤◌, ◌*◌};
ghost use Rattle.geometry.specs.Geometry.{sector_bytes};
ghost use Rattle.lending.specs.Lending.{lengths_held, SameLent};

use answer::Answer;
use geometry::{Drive, Geometry};
use lending::{Memory, Tables};
use paper::request::{Call, Request};
use paper::{request, tokens};
use state::{Outcome, State};
use std::io::Print;
use storing_calls::Storing;
use wording::say;

// Sectors that the program holds, and the bytes of their used map.
pub const HELD: u32 = 4096;

pub const USED: usize = HELD as usize / 8;

// A line's call among those that may store.
fn storing(call: Call) -> Storing {
    match call {
        Call::Format => Storing::Format,
        Call::Write => Storing::Write,
        Call::Drop => Storing::Drop,
        Call::Park => Storing::Park,
        _ => Storing::Recover,
    }
}

// Reads a block, and says it.
fn say_read(rt: &impl Print, s: State, m: &Memory<'_>, block: u32) -> Outcome {
    let mut out = [0u8; Geometry::SECTOR];
    let done = read::read(s, m.image(), &m.tables(), block, &mut out);
    let answer = done.answer;
    say::say_count(rt, b"read ", block);
    if answer.number() != 0 {
        say::say_refusal(rt, Call::Read, answer);
        return done;
    }
    say::say(rt, b": accepted; ");
    say::say_block(rt, &out);
    say::say(rt, b"\n");
    done
}

// Whether a block is not all zeros. Its line is said where that is asked for: the count goes before the lines, so they are gone through twice.
fn is_shown(
    rt: &impl Print,
    s: State,
    image: &[u8],
    t: &Tables<'_>,
    block: u32,
    aloud: bool,
) -> bool {
    let mut out = [0u8; Geometry::SECTOR];
    read::read(s, image, t, block, &mut out);
    if blocks::is_blank(&out) {
        return false;
    }
    if aloud {
        say::say_count(rt, b"block ", block);
        say::say(rt, b" ");
        say::say_block(rt, &out);
        say::say(rt, b"\n");
    }
    true
}

// How many blocks are not all zeros. What is lent is taken apart before the loop, so that each turn reads its own block alone.
fn show_blocks(rt: &impl Print, s: State, m: &Memory<'_>, aloud: bool) -> u32 {
    let image = m.image();
    let t = m.tables();
    let mut count = 0u32;
    for b in 0..s.geometry.l {
        if is_shown(rt, s, image, &t, b, aloud) {
            count += 1;
        }
    }
    count
}

// The blocks that are not all zeros, where reading block 0 is not refused.
fn show(rt: &impl Print, s: State, m: &Memory<'_>) -> Outcome {
    let mut out = [0u8; Geometry::SECTOR];
    let done = read::read(s, m.image(), &m.tables(), 0, &mut out);
    let answer = done.answer;
    say::say(rt, b"show");
    if answer.number() != 0 {
        say::say_refusal(rt, Call::Show, answer);
        return done;
    }
    say::say_count(rt, b": ", show_blocks(rt, s, m, false));
    say::say(rt, b" blocks\n");
    show_blocks(rt, s, m, true);
    done
}

// The bytes of so many sectors.
pub fn bytes_of(sectors: u32) -> usize
    ensures { result ≤ 4294967296 * sector_bytes }
{
    sectors as usize * Geometry::SECTOR
}

// The bytes of sector k.
fn sector_part(image: &[u8], k: u32) -> &[u8] {
    let first = bytes_of(k);
    tokens::part(image, first, first + Geometry::SECTOR)
}

// The sectors of the image, a line each, with the marks that a scan made where it found a log.
fn say_sectors(rt: &impl Print, image: &[u8], g: Geometry, found: bool, used: &[u8]) {
    for k in 0..g.n {
        let live = found && live_marks::is_live(used, k as usize);
        sector_line::say_sector(rt, sector_part(image, k), k, g, live);
    }
}

// Marks the live sectors in the part of the used map that belongs to the volume.
fn mark_live(image: &[u8], g: Geometry, used: &mut [u8]) -> bool {
    live_marks::mark_live(image, g, first(used, g.used_bytes() as usize))
}

// The sectors by the image alone, whatever the volume's own tables say.
fn show_sectors(rt: &impl Print, image: &[u8], g: Geometry) {
    let mut used = [0u8; USED];
    let found = mark_live(image, g, &mut used);
    say_sectors(rt, image, g, found, &used);
}

fn say_done(rt: &impl Print, call: Call, done: Outcome) {
    say::say_answer(rt, call, done.answer, done.state);
}

// A call on the parts that belong to the volume.
fn perform(
    rt: &impl Print,
    call: Call,
    r: Request,
    s: State,
    size: Geometry,
    drive: Drive,
    m: &mut Memory<'_>,
    blocks: &[u32],
    bytes: &[u8],
) -> Outcome {
    match call {
        Call::Read => say_read(rt, s, m, r.first),
        Call::Show => show(rt, s, m),
        Call::Sectors => {
            show_sectors(rt, m.image(), size);
            Outcome {
                answer: Answer::accepted(0),
                state: s,
            }
        }
        _ => {
            let done = storing_calls::perform(
                storing(call),
                s,
                m,
                size.settings(drive),
                r.first,
                blocks,
                bytes,
                r.stores(),
            );
            say_done(rt, call, done);
            done
        }
    }
}

// x where it is at most `most`, and otherwise 0.
pub fn within(x: usize, most: usize) -> usize
    ensures { result ≤ most }
{
    if x <= most { x } else { 0 }
}

// The first n items; none where there are not so many.
pub fn first<T>(items: &mut [T], n: usize) -> &mut [T] {
    let end = within(n, items.len());
    &mut items[..end]
}

// The bytes of the blocks of a line. The count is the line's; the array has room for the most.
fn bytes_part(bytes: &[u8], count: usize) -> &[u8] {
    if count <= request::MOST {
        tokens::part(bytes, 0, count * Geometry::SECTOR)
    } else {
        &[]
    }
}

// Lends the parts that belong to a volume of this size: of an image or a map that is out of range, nothing. The slices come one by one,
// since of each the language says that it keeps its length.
fn lend_parts(
    rt: &impl Print,
    call: Call,
    r: Request,
    s: State,
    size: Geometry,
    drive: Drive,
    image: &mut [u8],
    map: &mut [u32],
    places: &mut [u32],
    numbers: &mut [u32],
    used: &mut [u8],
    blocks: &[u32],
    bytes: &[u8],
) -> Outcome {
    let pieces = Geometry::pieces_for(size.l) as usize;
    let mut part = Memory {
        image: first(image, bytes_of(size.n)),
        map: first(map, size.l as usize),
        places: first(places, pieces),
        numbers: first(numbers, pieces),
        used: first(used, size.used_bytes() as usize),
    };
    perform(
        rt,
        call,
        r,
        s,
        size,
        drive,
        &mut part,
        tokens::part(blocks, 0, r.count),
        bytes_part(bytes, r.count),
    )
}

// A call on the volume in all that the program holds.
pub fn lend(
    rt: &impl Print,
    call: Call,
    r: Request,
    s: State,
    size: Geometry,
    drive: Drive,
    m: &mut Memory<'_>,
    blocks: &[u32],
    bytes: &[u8],
) -> Outcome
    ensures lent { SameLent m.new m.old }
    ensures lengths { lengths_held m.new ≡ lengths_held m.old }
{
    let image = &mut *m.image;
    let map = &mut *m.map;
    let places = &mut *m.places;
    let numbers = &mut *m.numbers;
    let used = &mut *m.used;
    lend_parts(
        rt, call, r, s, size, drive, image, map, places, numbers, used, blocks, bytes,
    )
}
