// A line for each sector of an image.
#![tactic(auto)]

ghost use Rattle.std.specs.Prelude.{◌≡◌, ◌≤◌, ◌<◌, ◌+◌, length};
ghost use Rattle.geometry.specs.Geometry.{sector_bytes};

use geometry::Geometry;
use std::io::Print;
use wording::say;

fn say_branches(rt: &impl Print, s: &[u8])
    requires { length s.now ≡ sector_bytes }
{
    let count = map_sector::branch_count(s) as usize;
    if count == 0 {
        say::say(rt, b" none");
    }
    for i in 0..count.min(Geometry::BRANCH_ROOM) {
        say::say_count(rt, b" ", map_sector::branch_at(s, i));
    }
}

fn say_map(rt: &impl Print, s: &[u8])
    requires { length s.now ≡ sector_bytes }
{
    say::say_count(rt, b" map; piece ", map_sector::piece_of(s));
    say::say_count(rt, b"; number ", map_sector::number_of(s));
    if map_sector::is_closing(s) {
        say::say(rt, b"; closing");
    } else {
        say::say(rt, b"; member");
    }
    say::say(rt, b"; branches");
    say_branches(rt, s);
}

fn say_park(rt: &impl Print, s: &[u8])
    requires { length s.now ≡ sector_bytes }
{
    say::say_count(rt, b" park; tail ", park_record::parked_tail(s));
    say::say_count(rt, b"; number ", park_record::parked_number(s));
}

// What a sector is: the park record counts in sector 0 alone.
fn say_kind(rt: &impl Print, s: &[u8], k: u32, g: Geometry)
    requires s_len { length s.now ≡ sector_bytes }
    requires le_n { 1 ≤ g.n }
{
    if blocks::is_blank(s) {
        say::say(rt, b" blank");
    } else if k == 0 && park_record::is_park(s) {
        say_park(rt, s);
    } else if map_sector::is_valid(s, g) {
        say_map(rt, s);
    } else {
        say::say(rt, b" data");
    }
}

// The line of sector k of a volume, and whether it is live.
pub fn say_sector(rt: &impl Print, s: &[u8], k: u32, g: Geometry, live: bool) {
    say::say_count(rt, b"sector ", k);
    if s.len() == Geometry::SECTOR && 1 <= g.n {
        say_kind(rt, s, k, g);
    }
    if live {
        say::say(rt, b"; live");
    }
    say::say(rt, b"\n");
}
