// Tries the code against the second implementation and the plain disk, on small volumes: the script on standard input, random histories with the
// power cut at each store, damaged images and damaged memory. The numbers are the same in every run.
#![tactic(auto)]

ghost use Rattle.std.specs.Prelude.{◌≤◌, length};

mod backlogs;
mod both;
mod both_batches;
mod copies;
mod cuts;
mod damage;
mod histories;
mod plugs;
mod script;

use damage::Damaged;
use reference_board::board;
use std::io::{Print, Read};
use trial_board::stand::Volume;
use trial_choice::{commits, settings};

// Reads until the text is full, the input ends or a read fails, and returns how many bytes came.
fn read_full(input: &mut impl Read, text: &mut [u8]) -> usize
    ensures { result ≤ length text.new }
{
    let most = text.len();
    let mut done = 0usize;
    // No `for`: the next turn begins where the last read ended.
    while done < most {
        let count = read_some(input, &mut text[done..]);
        if count == 0 {
            return done;
        }
        done += count;
    }
    done
}

// One read; 0 where it fails.
fn read_some(input: &mut impl Read, text: &mut [u8]) -> usize
    ensures { result ≤ length text.new }
{
    match input.read(text) {
        Ok(count) => count,
        Err(_) => 0,
    }
}

// Reads the script into the text, and carries it out. The text comes from the caller: of an array that is made where it is lent the check
// would count the elements.
fn run_script(
    rt: &impl Print,
    input: &mut impl Read,
    b: &mut [u32; board::SIZE],
    text: &mut [u8; script::MOST + 1],
) {
    let length = read_full(input, text);
    if length > script::MOST {
        script::refuse_all(rt, b);
    } else {
        script::run(rt, b, &text[..length]);
    }
}

fn try_script(rt: &impl Print, input: &mut impl Read) {
    let mut text = [0u8; script::MOST + 1];
    let mut b = [0u32; board::SIZE];
    run_script(rt, input, &mut b, &mut text);
    trial_report::say_script(rt, &b);
}

// Random histories on one volume, with so many blocks at most in a write and in a drop. Every `often`-th call is cut at each of its stores.
#[derive(Clone, Copy)]
struct Course {
    volume: Volume,
    written: u32,
    dropped: u32,
    spread: u32,
    calls: u32,
    often: u32,
}

impl Course {
    fn of(volume: Volume, spread: u32, calls: u32, often: u32) -> Course {
        Course {
            volume,
            written: 4,
            dropped: 6,
            spread,
            calls,
            often,
        }
    }

    // Writes of many blocks, so that the volume fills and searches are long.
    fn filling(self) -> Course {
        Course {
            written: 64,
            ..self
        }
    }

    // Drops of many pieces, so that commits fold.
    fn folding(self) -> Course {
        Course {
            written: 3,
            dropped: 49,
            ..self
        }
    }
}

// On a drive of several tracks every second recovery is given other settings, and every eighth that the history itself makes wrong ones.
fn try_course(rt: &impl Print, course: Course) {
    let Course {
        volume,
        written,
        dropped,
        spread,
        calls,
        often,
    } = course;
    let mut b = [0u32; board::SIZE];
    commits::limit(&mut b, written, dropped);
    if volume.tracks > 1 {
        settings::vary(&mut b, volume);
    }
    histories::run(&mut b, volume, spread, calls, often);
    trial_report::say_history(rt, &b, b"histories", volume);
}

// Short ones on both sides of a multiple of 64, and on it.
fn try_sides(rt: &impl Print, n: u32) {
    for side in [board::minus(n, 1), n, board::plus(n, 1)] {
        try_course(rt, Course::of(Volume::plain(1200, side), 40, 16, 8));
    }
}

// A history with so many blocks at most in a drop, and damaged copies of it. With drops of many pieces most sectors are signed.
fn try_damaged(
    rt: &impl Print,
    damaged: Damaged,
    volume: Volume,
    dropped: u32,
    spread: u32,
    calls: u32,
) {
    let mut b = [0u32; board::SIZE];
    commits::limit(&mut b, 3, dropped);
    damage::run(&mut b, volume, spread, calls, damaged);
    trial_report::say_damage(rt, &b, damaged.family(), volume);
}

// A volume whose numbers end soon, again and again.
fn try_late(rt: &impl Print, volume: Volume, spread: u32, times: u32, often: u32) {
    let mut b = [0u32; board::SIZE];
    commits::limit(&mut b, 4, 6);
    histories::run_late(&mut b, volume, spread, times, often);
    trial_report::say_history(rt, &b, b"histories to the last number", volume);
}

fn try_plugs(rt: &impl Print) {
    let mut b = [0u32; board::SIZE];
    plugs::run(rt, &mut b);
    backlogs::run(rt, &mut b);
}

fn main(rt: HostRuntime) {
    let mut input = rt.stdin();
    try_script(&rt, &mut input);
    try_course(&rt, Course::of(Volume::plain(2, 4), 1, 1500, 1));
    try_course(&rt, Course::of(Volume::plain(97, 6), 8, 1500, 1));
    try_course(&rt, Course::of(Volume::plain(200, 8), 20, 1500, 1));
    try_course(&rt, Course::of(Volume::plain(200, 12), 20, 1500, 1));
    try_course(&rt, Course::of(Volume::plain(1000, 48), 50, 400, 2));
    // On both sides of a whole word of the used map, and of two.
    try_course(&rt, Course::of(Volume::plain(600, 63), 30, 200, 3));
    try_course(&rt, Course::of(Volume::plain(600, 64), 30, 200, 3));
    try_course(&rt, Course::of(Volume::plain(600, 65), 30, 200, 3));
    try_course(&rt, Course::of(Volume::plain(1500, 127), 60, 100, 4));
    try_course(&rt, Course::of(Volume::plain(1500, 129), 60, 100, 4));
    try_course(&rt, Course::of(Volume::plain(2593, 90), 96, 80, 4));
    try_course(
        &rt,
        Course::of(Volume::plain(4704, 128), 96, 80, 6).folding(),
    );
    // And of each further one.
    for words in 3..16u32 {
        try_sides(&rt, words * 64);
    }
    // On both sides of the small tables, which serve 1,024 sectors. In the folds the numbers pass 1,024, so that some agree modulo that.
    try_course(&rt, Course::of(Volume::plain(3000, 1023), 60, 60, 4));
    try_course(&rt, Course::of(Volume::plain(3000, 1024), 60, 60, 4));
    try_course(&rt, Course::of(Volume::plain(3000, 1025), 60, 60, 4));
    try_course(
        &rt,
        Course::of(Volume::plain(4000, 1023), 3, 200, 30).filling(),
    );
    try_course(
        &rt,
        Course::of(Volume::plain(4000, 1024), 3, 200, 30).filling(),
    );
    try_course(
        &rt,
        Course::of(Volume::plain(4000, 1025), 3, 200, 30).filling(),
    );
    try_course(
        &rt,
        Course::of(Volume::plain(4704, 1023), 96, 120, 90).folding(),
    );
    try_course(
        &rt,
        Course::of(Volume::plain(4704, 1024), 96, 120, 90).folding(),
    );
    try_course(
        &rt,
        Course::of(Volume::plain(4704, 1025), 96, 120, 90).folding(),
    );
    // Several tracks: without a head switch, with one of a sector, of a revolution and more; tracks of one sector; long tracks, full ones
    // and folds.
    try_course(&rt, Course::of(Volume::on(200, 12, 3, 0), 20, 600, 1));
    try_course(&rt, Course::of(Volume::on(200, 12, 3, 1), 20, 600, 1));
    try_course(&rt, Course::of(Volume::on(200, 12, 3, 5), 20, 600, 1));
    try_course(&rt, Course::of(Volume::on(200, 12, 2, 6), 20, 600, 1));
    try_course(&rt, Course::of(Volume::on(2, 4, 4, 1), 1, 600, 1));
    try_course(&rt, Course::of(Volume::on(200, 12, 12, 3), 20, 600, 1));
    try_course(&rt, Course::of(Volume::on(1000, 48, 6, 2), 50, 200, 2));
    try_course(&rt, Course::of(Volume::on(600, 64, 8, 3), 30, 100, 3));
    try_course(&rt, Course::of(Volume::on(1500, 128, 16, 20), 60, 60, 4));
    try_course(
        &rt,
        Course::of(Volume::on(4704, 128, 8, 3), 96, 40, 6).folding(),
    );
    try_course(
        &rt,
        Course::of(Volume::on(4000, 1024, 32, 5), 3, 100, 40).filling(),
    );
    try_course(
        &rt,
        Course::of(Volume::on(4000, 1040, 13, 255), 3, 100, 40).filling(),
    );
    try_late(&rt, Volume::plain(200, 24), 20, 150, 3);
    try_late(&rt, Volume::on(97, 24, 3, 2), 8, 100, 2);
    try_damaged(&rt, Damaged::Image, Volume::plain(2, 4), 4, 1, 2000);
    try_damaged(&rt, Damaged::Image, Volume::plain(200, 12), 4, 20, 3000);
    try_damaged(&rt, Damaged::Image, Volume::plain(300, 63), 4, 20, 400);
    try_damaged(&rt, Damaged::Image, Volume::plain(300, 64), 4, 20, 400);
    try_damaged(&rt, Damaged::Image, Volume::plain(300, 65), 4, 20, 400);
    try_damaged(&rt, Damaged::Image, Volume::plain(1000, 48), 4, 50, 400);
    try_damaged(&rt, Damaged::Image, Volume::plain(4704, 1023), 49, 96, 100);
    try_damaged(&rt, Damaged::Image, Volume::plain(4704, 1024), 49, 96, 100);
    try_damaged(&rt, Damaged::Image, Volume::plain(4704, 1025), 49, 96, 100);
    try_damaged(&rt, Damaged::Image, Volume::on(200, 12, 3, 1), 4, 20, 800);
    try_damaged(&rt, Damaged::Memory, Volume::plain(200, 12), 4, 20, 3000);
    try_damaged(&rt, Damaged::Memory, Volume::on(200, 12, 4, 2), 4, 20, 1500);
    try_damaged(&rt, Damaged::Memory, Volume::plain(4704, 1023), 49, 96, 60);
    try_damaged(&rt, Damaged::Memory, Volume::plain(4704, 1024), 49, 96, 60);
    try_damaged(&rt, Damaged::Memory, Volume::plain(4704, 1025), 49, 96, 60);
    try_plugs(&rt);
}
