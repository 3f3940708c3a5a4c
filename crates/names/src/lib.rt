// The sectors that tables name, marked in a bit map. That none is named twice shows in how many bits are then set.
#![tactic(auto)]

ghost use Rattle.std.specs.Prelude.{◌≡◌, ℕ, suc, ◌+◌, ◌-◌, ◌*◌, ◌/◌, ◌%◌, ◌^◌, ◌<◌, ◌≤◌, Bool, true, false, List, [], length, replicate, if◌then◌else◌, ◌==◌, nat_eq, MatchOption};
ghost use Rattle.geometry.specs.Geometry.{within, most_blocks, pieces_for, most_pieces};
ghost use Rattle.geometry.specs.SizeClasses.{small_sectors, small_used_bytes};
ghost use Rattle.layout.specs.Bounded.{at, count_below, all, always, gathered, updated};
ghost use Rattle.layout.specs.Entry.{is_empty, sector_of};
ghost use Rattle.volume.specs.Tables.{bit_at, named_by, used_by};
ghost use Rattle.names.specs.Marked.{with_entries, marked};

use geometry::Geometry;

// Whether k is a sector from 1 to n - 1. Below n - 1 after one is taken from it, 0 wraps: one test for both ends.
fn is_inside(n: u32, k: u32) -> bool
    requires { 1 ≤ n }
    ensures { result ≡ within 1 (n - 1) k }
{
    k.wrapping_sub(1) < n - 1
}

// How many words pass. All are looked at, so that the compiler judges several at a time.
fn count_passing<F: Fn(u32) -> bool>(words: &[u32], passes: F) -> u32
    requires callable { F.IsAlwaysCallable passes }
    requires words_len_bound { length words.now ≤ most_blocks }
    ensures few { result ≤ most_blocks }
    ensures counted { (test : ℕ → Bool) → ((w : ℕ) (b : Bool) → w < 2 ^ 32 → F.post passes w b → b ≡ test w) → result ≡ count_below (λ i. test (at words.now i)) (length words.now) }
{
    let mut count: u32 = 0;
    for word in words {
        if passes(*word) {
            count += 1;
        }
    }
    count
}

// How many places are sectors from 1 to n - 1.
fn places_inside(n: u32, places: &[u32]) -> u32
    requires le_n { 1 ≤ n }
    requires places_len_bound { length places.now ≤ most_blocks }
    ensures { result ≡ count_below (λ q. within 1 (n - 1) (at places.now q)) (length places.now) }
{
    count_passing(places, |k| is_inside(n, k))
}

// How many entries name a sector from 1 to n - 1.
fn entries_inside(n: u32, map: &[u32]) -> u32
    requires le_n { 1 ≤ n }
    requires map_len_bound { length map.now ≤ most_blocks }
    ensures { (result ≡ count_below (λ b. within 1 (n - 1) (sector_of (at map.now b))) (length map.now)) × (result ≤ most_blocks) }
{
    count_passing(map, |entry| is_inside(n, blocks::sector_of(entry)))
}

// How many entries are empty.
fn count_empty(map: &[u32]) -> u32
    requires { length map.now ≤ most_blocks }
    ensures { (result ≡ count_below (λ b. is_empty (at map.now b)) (length map.now)) × (result ≤ most_blocks) }
{
    count_passing(map, |entry| entry == 0)
}

// Whether every name is a sector from 1 to n - 1, given how many entries name one: the others are empty then, and every place is
// one.
fn all_inside(g: Geometry, map: &[u32], places: &[u32], entries: u32) -> bool
    requires le_n { 1 ≤ g.n }
    requires l_le_most_blocks { g.l ≤ most_blocks }
    requires map_len { length map.now ≡ g.l }
    requires places_len { length places.now ≡ pieces_for g.l }
    requires entries_le_most_blocks { entries ≤ most_blocks }
    requires entries_value { entries ≡ count_below (λ b. within 1 (g.n - 1) (sector_of (at map.now b))) (length map.now) }
    ensures { result ≡ all (within 1 (g.n - 1)) (named_by g.l (at map.now) (at places.now)) }
{
    if places_inside(g.n, places) as usize != places.len() {
        return false;
    }
    (entries + count_empty(map)) as usize == map.len()
}

// Marks sector 0 and the live places. (A place is a sector, and an entry says one: one loop for both would be no plainer.)
fn mark_places(marks: &mut [u8], places: &[u32])
    requires marks_nonzero { 0 < length marks.old }
    requires marks_value { marks.old ≡ replicate (length marks.old) 0 }
    requires by_index { (q : ℕ) → q < length places.now → at places.now q < 8 * length marks.old }
    ensures { bit_at marks.new ≡ used_by (gathered always (at places.now) [] (length places.now)) }
{
    bits::set_bit(marks, 0);
    for place in places {
        bits::set_bit(marks, *place as usize);
    }
}

// Marks the sector of an entry.
fn mark_entry(marks: &mut [u8], entry: u32)
    requires { sector_of entry < 8 * length marks.old }
    ensures { bit_at marks.new ≡ updated (bit_at marks.old) (sector_of entry) true }
{
    bits::set_bit(marks, blocks::sector_of(entry) as usize);
}

// Marks the sectors of the first entries, four times `quarter` of them. Neighbours are often in one byte, and each would wait for the one
// before to be stored: so one of each quarter is marked in turn.
fn mark_quarters(marks: &mut [u8], map: &[u32], quarter: usize)
    requires quarter_in_bounds { 4 * quarter ≤ length map.now }
    requires by_index { (b : ℕ) → b < length map.now → sector_of (at map.now b) < 8 * length marks.old }
    ensures { bit_at marks.new ≡ marked (λ b. sector_of (at map.now b)) (4 * quarter) (bit_at marks.old) }
{
    for i in 0..quarter {
        mark_entry(marks, map[i]);
        mark_entry(marks, map[quarter + i]);
        mark_entry(marks, map[2 * quarter + i]);
        mark_entry(marks, map[3 * quarter + i]);
    }
}

// Marks the sectors of the entries from one on.
fn mark_rest(marks: &mut [u8], map: &[u32], from: usize)
    requires from_in_bounds { from ≤ length map.now }
    requires by_index { (b : ℕ) → b < length map.now → sector_of (at map.now b) < 8 * length marks.old }
    ensures { (first : ℕ → Bool) → bit_at marks.old ≡ marked (λ b. sector_of (at map.now b)) from first → bit_at marks.new ≡ marked (λ b. sector_of (at map.now b)) (length map.now) first }
{
    for i in from..map.len() {
        mark_entry(marks, map[i]);
    }
}

// Marks the sectors of the entries beside others. An empty entry says sector 0, which is marked at all times, so that no entry is
// tested.
fn mark_entries(marks: &mut [u8], map: &[u32])
    requires { (b : ℕ) → b < length map.now → sector_of (at map.now b) < 8 * length marks.old }
    ensures { (others : List ℕ) → bit_at marks.old ≡ used_by others → bit_at marks.new ≡ used_by (with_entries (at map.now) (length map.now) others) }
{
    let quarter = map.len() / 4;
    mark_quarters(marks, map, quarter);
    mark_rest(marks, map, 4 * quarter);
}

// The same, where most entries are empty: these are passed over, since all would mark sector 0, each after the other.
fn mark_full(marks: &mut [u8], map: &[u32])
    requires { (b : ℕ) → b < length map.now → sector_of (at map.now b) < 8 * length marks.old }
    ensures { (others : List ℕ) → bit_at marks.old ≡ used_by others → bit_at marks.new ≡ used_by (with_entries (at map.now) (length map.now) others) }
{
    for entry in map {
        if *entry != 0 {
            mark_entry(marks, *entry);
        }
    }
}

// Marks the sectors of the entries, of which so many name one or a few more.
fn mark_map(marks: &mut [u8], map: &[u32], count: u32)
    requires { (b : ℕ) → b < length map.now → sector_of (at map.now b) < 8 * length marks.old }
    ensures { (others : List ℕ) → bit_at marks.old ≡ used_by others → bit_at marks.new ≡ used_by (with_entries (at map.now) (length map.now) others) }
{
    if (count as usize) < map.len() / 4 {
        mark_full(marks, map);
        return;
    }
    mark_entries(marks, map);
}

// Marks sector 0, the live places, and the sectors of the entries, of which about so many are not empty.
pub fn mark_all(marks: &mut [u8], map: &[u32], places: &[u32], count: u32)
    requires marks_nonzero { 0 < length marks.old }
    requires marks_value { marks.old ≡ replicate (length marks.old) 0 }
    requires by_index { (q : ℕ) → q < length places.now → at places.now q < 8 * length marks.old }
    requires by_index_2 { (b : ℕ) → b < length map.now → sector_of (at map.now b) < 8 * length marks.old }
    ensures { bit_at marks.new ≡ used_by (with_entries (at map.now) (length map.now) (gathered always (at places.now) [] (length places.now))) }
{
    mark_places(marks, places);
    mark_map(marks, map, count);
}

// A word of the map with the bit of sector k set.
fn with_bit(word: u64, k: u32) -> u64
    ensures { (j : ℕ) → j < 64 → (result / 2 ^ j % 2 == 1) ≡ (if nat_eq j (k % 64) then true else (word / 2 ^ j % 2 == 1)) }
{
    word | (1u64 << (k % 64))
}

// Marks the sectors of the entries in the map of a small volume. The word of 64 bits at hand is kept apart while one name after the other falls
// into it: in so small a map many do, and each would wait for the one before to be stored.
fn mark_few_entries(marks: &mut [u8], map: &[u32])
    requires marks_len { length marks.old ≡ small_used_bytes }
    requires by_index { (b : ℕ) → b < length map.now → sector_of (at map.now b) < small_sectors }
    ensures { (others : List ℕ) → bit_at marks.old ≡ used_by others → bit_at marks.new ≡ used_by (with_entries (at map.now) (length map.now) others) }
{
    let mut hand = 0;
    let mut held = bits::word_at(marks, 0);
    for entry in map {
        let k = blocks::sector_of(*entry);
        let q = (k / 64) as usize;
        if q != hand {
            bits::put_word(marks, hand, held);
            hand = q;
            held = bits::word_at(marks, q);
        }
        held = with_bit(held, k);
    }
    bits::put_word(marks, hand, held);
}

// Marks sector 0, the live places, and the sectors of the entries in the map of a small volume. (Beside mark_all: callers choose by the
// length of their map.)
pub fn mark_few(marks: &mut [u8], map: &[u32], places: &[u32])
    requires marks_len { length marks.old ≡ small_used_bytes }
    requires marks_value { marks.old ≡ replicate (length marks.old) 0 }
    requires by_index { (q : ℕ) → q < length places.now → at places.now q < small_sectors }
    requires by_index_2 { (b : ℕ) → b < length map.now → sector_of (at map.now b) < small_sectors }
    ensures { bit_at marks.new ≡ used_by (with_entries (at map.now) (length map.now) (gathered always (at places.now) [] (length places.now))) }
{
    mark_places(marks, places);
    mark_few_entries(marks, map);
}

// How many names there are, if every sector that the tables name is one from 1 to n - 1.
pub fn judge_names(g: Geometry, map: &[u32], places: &[u32]) -> Option<u32>
    requires le_n { 1 ≤ g.n }
    requires l_le_most_blocks { g.l ≤ most_blocks }
    requires map_len { length map.now ≡ g.l }
    requires places_len { length places.now ≡ pieces_for g.l }
    ensures { MatchOption result (all (within 1 (g.n - 1)) (named_by g.l (at map.now) (at places.now)) ≡ false) (λ count. (all (within 1 (g.n - 1)) (named_by g.l (at map.now) (at places.now)) ≡ true) × (count ≡ length (named_by g.l (at map.now) (at places.now))) × ((q : ℕ) → q < length places.now → at places.now q < g.n) × ((b : ℕ) → b < length map.now → sector_of (at map.now b) < g.n) × (count ≤ most_blocks + most_pieces)) }
{
    let entries = entries_inside(g.n, map);
    if !all_inside(g, map, places, entries) {
        return None;
    }
    Some(places.len() as u32 + entries)
}
