// A search for a free sector: along one track, or at every track, position by position. What is used stays used for the rest of a
// commit, so that the tracks that have nothing free at a position are not looked at there again: all searches of a commit together
// look at each sector once or twice, and at the positions that pass by.
#![tactic(auto)]

ghost use Rattle.std.specs.Prelude.{◌≡◌, true, false, cond, MatchOption, ℕ, ◌+◌, ◌*◌, ◌%◌, ◌≤◌, ◌<◌, length, ltb};
ghost use Rattle.geometry.specs.Geometry.{most_sectors};
ghost use Rattle.layout.specs.Bounded.{at};
ghost use Rattle.volume.specs.Tables.{bit_at};
ghost use Rattle.searching.specs.Searching.{turned, AllPassed, UsedAt, LowestFree, NoneWithin, all_tracks, Known};

// What a byte says of a position at which no track has a free sector. A byte and no Option, since `Known`, a clause of callers, says so.
const ALL_TRACKS: u8 = 255;

// How far a search went: the sector where it ended, and the positions that it passed.
#[derive(Clone, Copy)]
pub struct Reached {
    pub sector: u32,
    pub skipped: u32,
}

// After the last of first to end - 1 comes the first.
pub fn around(first: u32, end: u32, k: u32) -> u32
    ensures { result ≡ cond (ltb k end) k first }
{
    if k < end {
        return k;
    }
    first
}

// How many sectors from k on can be skipped at once: those of a whole word of the map that starts at k and is full, else those of such
// a byte, else k alone.
fn used_run(used: &[u8], n: u32, k: u32, steps: u32) -> u32
    requires k_lt_n { k < n }
    requires steps_nonzero { 0 < steps }
    requires n_bound { n ≤ 8 * length used.now }
    requires k_value { bit_at used.now k ≡ true }
    ensures { (0 < result) × (result ≤ steps) × (k + result ≤ n) × ((j : ℕ) → j < result → bit_at used.now (k + j) ≡ true) }
{
    let room = steps.min(n - k);
    if k % 64 == 0 && 64 <= room && bits::word_at(used, (k / 64) as usize) == bits::FULL {
        return 64;
    }
    if k % 8 == 0 && 8 <= room && used[(k / 8) as usize] == u8::MAX {
        return 8;
    }
    1
}

// Along one track, of size sectors from first on: upwards from start and around, to a free sector or over so many positions. A turn skips
// a run of any length, so no index is counted.
pub fn search_track(used: &[u8], first: u32, size: u32, start: u32, steps: u32) -> Reached
    requires first_le_start { first ≤ start }
    requires start_bound { start < first + size }
    requires size_bound { first + size ≤ most_sectors }
    requires size_bound_2 { first + size ≤ 8 * length used.now }
    requires steps_le_most_sectors { steps ≤ most_sectors }
    ensures { (result.sector ≡ turned first size start result.skipped) × (result.skipped ≤ steps) × AllPassed (bit_at used.now) first size start result.skipped × (result.skipped < steps → bit_at used.now result.sector ≡ false) }
{
    let end = first + size;
    let mut k = start;
    let mut skipped = 0;
    while skipped < steps && bits::is_set(used, k as usize) {
        let run = used_run(used, end, k, steps - skipped);
        k = around(first, end, k + run);
        skipped += run;
    }
    Reached { sector: k, skipped }
}

// The lowest free sector at a position, whatever its track, and how many tracks come before it; the same past the last track, where
// none is free. The first so many tracks are known to have none. Two numbers go up together, until the test ends it: a range of tracks would
// be no plainer.
fn lowest_at(used: &[u8], n: u32, size: u32, position: u32, known: u32) -> Reached
    requires position_lt_size { position < size }
    requires size_le_most_sectors { size ≤ most_sectors }
    requires n_le_most_sectors { n ≤ most_sectors }
    requires n_bound { n ≤ 8 * length used.now }
    requires known_bound { known ≤ 255 }
    requires used_at { UsedAt (bit_at used.now) size position (position + known * size) }
    ensures { (result.sector ≡ position + result.skipped * size) × UsedAt (bit_at used.now) size position result.sector × (result.sector < n → bit_at used.now result.sector ≡ false) }
{
    let mut k = position + known * size;
    let mut track = known;
    while k < n && bits::is_set(used, k as usize) {
        k += size;
        track += 1;
    }
    Reached {
        sector: k,
        skipped: track,
    }
}

// What is then known of the position, in a byte: that no track has a free sector, or how many have none, up to 254.
fn noted(lowest: Reached, n: u32) -> u8
    ensures { (result ≡ all_tracks → n ≤ lowest.sector) × (result < all_tracks → result ≤ lowest.skipped) }
{
    if n <= lowest.sector {
        return ALL_TRACKS;
    }
    lowest.skipped.min(254) as u8
}

// The sector where a search ended, if it is one of n.
fn below(sector: u32, n: u32) -> Option<u32>
    ensures { MatchOption result (n ≤ sector) (λ k. (k ≡ sector) × (k < n)) }
{
    (sector < n).then_some(sector)
}

// The lowest free sector at a position, by what is known of it where something is kept.
fn look_at(used: &[u8], known: &mut [u8], n: u32, size: u32, position: u32) -> Option<u32>
    requires position_lt_size { position < size }
    requires size_le_most_sectors { size ≤ most_sectors }
    requires n_le_most_sectors { n ≤ most_sectors }
    requires n_bound { n ≤ 8 * length used.now }
    requires known { Known known.old (bit_at used.now) n size }
    ensures found { MatchOption result (UsedAt (bit_at used.now) size position n) (λ k. (k < n) × LowestFree (bit_at used.now) size position k) }
    ensures known { Known known.new (bit_at used.now) n size }
{
    if known.len() <= position as usize {
        let lowest = lowest_at(used, n, size, position, 0);
        return below(lowest.sector, n);
    }
    let before = known[position as usize];
    if before == ALL_TRACKS {
        return None;
    }
    let lowest = lowest_at(used, n, size, position, before as u32);
    known[position as usize] = noted(lowest, n);
    below(lowest.sector, n)
}

// The first position from one on, over so many, that is not known to be without a free sector on any track.
fn full_until(known: &[u8], size: u32, position: u32, steps: u32) -> u32
    requires position_lt_size { position < size }
    requires size_le_most_sectors { size ≤ most_sectors }
    ensures { (position ≤ result) × (result ≤ size) × (result ≤ position + steps) × ((j : ℕ) → position ≤ j → j < result → at known.now j ≡ all_tracks) }
{
    let end = position + steps.min(size - position);
    for k in position..end {
        if known.len() <= k as usize || known[k as usize] != ALL_TRACKS {
            return k;
        }
    }
    end
}

// At every track, position by position over one revolution; n or above where none is free, as its clause says.
pub fn search_tracks(used: &[u8], known: &mut [u8], n: u32, size: u32, position: u32) -> Reached
    requires position_lt_size { position < size }
    requires size_le_most_sectors { size ≤ most_sectors }
    requires n_le_most_sectors { n ≤ most_sectors }
    requires n_bound { n ≤ 8 * length used.now }
    requires known { Known known.old (bit_at used.now) n size }
    ensures { (result.skipped ≤ size) × NoneWithin (bit_at used.now) n size position result.skipped × (result.sector < n → LowestFree (bit_at used.now) size ((position + result.skipped) % size) result.sector) × (n ≤ result.sector → result.skipped ≡ size) × Known known.new (bit_at used.now) n size }
{
    let mut at = position;
    let mut skipped = 0;
    loop {
        let run = full_until(known, size, at, size - skipped) - at;
        at = around(0, size, at + run);
        skipped += run;
        if skipped == size {
            return Reached { sector: n, skipped };
        }
        if let Some(k) = look_at(used, known, n, size, at) {
            return Reached { sector: k, skipped };
        }
        at = around(0, size, at + 1);
        skipped += 1;
    }
}
