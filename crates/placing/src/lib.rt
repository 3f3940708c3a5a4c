// Placing: where the sectors of a commit go. A search looks along the head's own track while the head could not have changed to
// another, and then at every track.
#![tactic(auto)]

ghost use Rattle.std.specs.Prelude.{◌≡◌, ◌++◌, true, cond, ◌*◌, ◌≤◌, ◌<◌, length, drop, replicate, eqb, ltb};
ghost use Rattle.geometry.specs.Geometry.{most_sectors, longest_switch, commit_sectors, drive_fits};
ghost use Rattle.layout.specs.Bounded.{list_from};
ghost use Rattle.tracks.specs.Placing.{track_of, delay, least_delay, place_of, skipped_by};
ghost use Rattle.volume.specs.Tables.{bit_at};
ghost use Rattle.power.specs.Power.{made};
ghost use Rattle.searching.specs.Searching.{AllPassed, Known};
ghost use Rattle.placing.specs.Choosing.{Chosen};

use geometry::Drive;

// A byte is kept for each of the first positions of a track, so many of a small volume's. Tracks that have more positions are few,
// and are all looked at there each time.
pub const KEPT_POSITIONS: usize = 8_192;

pub const SMALL_KEPT_POSITIONS: usize = 512;

// What a search gives: the free sector, the delay to it, and the first sector of its track.
#[derive(Clone, Copy)]
struct Found {
    sector: u32,
    skipped: u32,
    first: u32,
}

// For so many positions no track but the head's own need be looked at: the head cannot have changed to another yet, or there is none.
fn own_positions(d: Drive) -> u32
    ensures { result ≡ cond (eqb d.tracks 1) d.sectors (cond (ltb d.switch d.sectors) d.switch d.sectors) }
{
    if d.tracks == 1 {
        return d.sectors;
    }
    d.switch.min(d.sectors)
}

// The delay from a start to sector 0.
fn delay_to_0(d: Drive, start: u32) -> u32
    requires sectors_nonzero { 0 < d.sectors }
    requires sectors_le_most_sectors { d.sectors ≤ most_sectors }
    requires switch_le_longest_switch { d.switch ≤ longest_switch }
    ensures { result ≡ delay d start 0 }
{
    let size = d.sectors;
    if start / size == 0 {
        return (size - start % size) % size;
    }
    d.switch + (size - (start % size + d.switch) % size) % size
}

// The definition's answer where no sector is free. No commit comes to it: its room was checked.
fn nowhere(d: Drive, start: u32) -> Found
    requires sectors_nonzero { 0 < d.sectors }
    requires sectors_le_most_sectors { d.sectors ≤ most_sectors }
    requires switch_le_longest_switch { d.switch ≤ longest_switch }
    ensures { (result.sector ≡ 0) × (result.skipped ≡ delay d start 0) × (result.first ≡ 0) }
{
    Found {
        sector: 0,
        skipped: delay_to_0(d, start),
        first: 0,
    }
}

// The nearest free sector of any track, where none is free on the head's own before another can be reached.
fn find_elsewhere(used: &[u8], known: &mut [u8], n: u32, d: Drive, first: u32, start: u32) -> Found
    requires d_value { drive_fits n d ≡ true }
    requires n_le_most_sectors { n ≤ most_sectors }
    requires n_bound { n ≤ 8 * length used.now }
    requires start_lt_n { start < n }
    requires first_value { first ≡ track_of d start * d.sectors }
    requires all_passed { AllPassed (bit_at used.now) first d.sectors start (cond (ltb d.switch d.sectors) d.switch d.sectors) }
    requires known { Known known.old (bit_at used.now) n d.sectors }
    ensures { Chosen d n (bit_at used.now) start result.sector result.skipped result.first × Known known.new (bit_at used.now) n d.sectors }
{
    let size = d.sectors;
    let switch = d.switch;
    let position = (start - first + switch) % size;
    let reached = searching::search_tracks(used, known, n, size, position);
    let k = reached.sector;
    if n <= k {
        return nowhere(d, start);
    }
    Found {
        sector: k,
        skipped: switch + reached.skipped,
        first: k - k % size,
    }
}

// The free sector of least delay from start, which lies on the track that begins at first.
fn find_place(used: &[u8], known: &mut [u8], n: u32, d: Drive, first: u32, start: u32) -> Found
    requires d_value { drive_fits n d ≡ true }
    requires n_le_most_sectors { n ≤ most_sectors }
    requires n_bound { n ≤ 8 * length used.now }
    requires start_lt_n { start < n }
    requires first_value { first ≡ track_of d start * d.sectors }
    requires known { Known known.old (bit_at used.now) n d.sectors }
    ensures { Chosen d n (bit_at used.now) start result.sector result.skipped result.first × Known known.new (bit_at used.now) n d.sectors }
{
    let size = d.sectors;
    let tracks = d.tracks;
    let steps = own_positions(d);
    let own = searching::search_track(used, first, size, start, steps);
    let skipped = own.skipped;
    if skipped < steps {
        return Found {
            sector: own.sector,
            skipped,
            first,
        };
    }
    if tracks == 1 {
        return nowhere(d, start);
    }
    find_elsewhere(used, known, n, d, first, start)
}

// What the j-th search adds to the bill: nothing where the power does not reach to its store.
fn charge(j: usize, allowance: u32, skipped: u32) -> u32
    ensures { result ≡ cond (ltb j allowance) skipped 0 }
{
    if j < (allowance as usize) { skipped } else { 0 }
}

// The first sector of the track that a sector lies on.
fn first_of(d: Drive, k: u32) -> u32
    requires { 0 < d.sectors }
    ensures { result ≡ track_of d k * d.sectors }
{
    k - k % d.sectors
}

// The sectors that a commit takes, in order; answers the sum of the delays to those that will be stored. The places are marked in a
// copy of the used map, so that none is taken twice and nothing superseded is free; nothing is known of the positions at first.
pub fn find_places(
    used: &mut [u8],
    known: &mut [u8],
    n: u32,
    d: Drive,
    head: u32,
    count: usize,
    places: &mut [u32],
    allowance: u32,
) -> u32
    requires d_value { drive_fits n d ≡ true }
    requires n_le_most_sectors { n ≤ most_sectors }
    requires head_lt_n { head < n }
    requires n_bound { n ≤ 8 * length used.old }
    requires known_value { known.old ≡ replicate (length known.old) 0 }
    requires count_in_bounds { count ≤ length places.old }
    requires count_le_commit_sectors { count ≤ commit_sectors }
    ensures { (places.new ≡ list_from (place_of (least_delay d) n (bit_at used.old) head) 0 count ++ drop count places.old) × (result ≡ skipped_by (least_delay d) n (bit_at used.old) head (made count allowance)) }
{
    let size = d.sectors;
    let mut start = head;
    let mut first = first_of(d, head);
    let mut total = 0;
    for (j, place) in places[..count].iter_mut().enumerate() {
        let found = find_place(used, known, n, d, first, start);
        let k = found.sector;
        bits::set_bit(used, k as usize);
        *place = k;
        total += charge(j, allowance, found.skipped);
        first = found.first;
        start = searching::around(first, first + size, k + 1);
    }
    total
}
