// The walk: the log as it is found from its tail.
#![tactic(auto)]

ghost use Rattle.std.specs.Prelude.{◌≡◌, true, not, ℕ, ◌+◌, ◌*◌, ◌≤◌, ◌<◌, length};
ghost use Rattle.geometry.specs.Geometry.{sector_bytes, pieces_for, used_bytes, geometry_fits, entries_per_piece, branch_room, most_pieces};
ghost use Rattle.layout.specs.Bounded.{at, all_below, list_from, is_zero};
ghost use Rattle.layout.specs.Word.{words_of};
ghost use Rattle.lending.specs.Lending.{SameLengths, SameTables};
ghost use Rattle.volume.specs.Tables.{sector_at};
ghost use Rattle.volume.specs.Recover.{image_view, walked_log, walk_complete};
ghost use Rattle.signed.specs.Signed.{signed_at};
ghost use Rattle.log_tables.specs.LogTables.{map_from};
ghost use Rattle.walk.specs.Walking.{Left, branch_word_count};

use geometry::Geometry;
use lending::TablesMut;
use log_tables::{agrees, fill_map};

// Whether every piece is done.
fn all_taken(taken: &[u32]) -> bool
    ensures { result ≡ all_below (λ p. not (is_zero (at taken.now p))) (length taken.now) }
{
    !taken.contains(&0)
}

// The numbers of the sectors at these places.
fn read_numbers(numbers: &mut [u32], image: &[u8], places: &[u32])
    requires numbers_in_bounds { length numbers.old ≤ length places.now }
    requires by_index { (p : ℕ) → p < length places.now → sector_bytes * at places.now p + sector_bytes ≤ length image.now }
    ensures { numbers.new ≡ list_from (λ p. at (words_of (sector_at image.now (at places.now p))) 2) 0 (length numbers.old) }
{
    for (i, number) in numbers.iter_mut().enumerate() {
        let s = images::sector(image, places[i] as usize);
        *number = map_sector::number_of(s);
    }
}

// The map and the numbers of the sectors that a walk took.
fn walk_fill(image: &[u8], places: &[u32], map: &mut [u32], numbers: &mut [u32])
    requires map_len_bound { length map.old ≤ entries_per_piece * length places.now }
    requires numbers_in_bounds { length numbers.old ≤ length places.now }
    requires by_index { (p : ℕ) → p < length places.now → sector_bytes * at places.now p + sector_bytes ≤ length image.now }
    ensures { (map.new ≡ map_from (sector_at image.now) places.now (length map.old)) × (numbers.new ≡ list_from (λ p. at (words_of (sector_at image.now (at places.now p))) 2) 0 (length numbers.old)) }
{
    fill_map::fill_map(image, places, map);
    read_numbers(numbers, image, places);
}

// Whether a walk from the tail takes a sector for every piece, and the tables are sound. They then stand in what was lent.
pub fn walk_tables(image: &[u8], g: Geometry, tail: u32, number: u32, t: &mut TablesMut<'_>) -> bool
    requires g_value { geometry_fits g ≡ true }
    requires image_len { length image.now ≡ sector_bytes * g.n }
    requires le_tail { 1 ≤ tail }
    requires tail_value { signed_at g (sector_at image.now) tail ≡ true }
    requires map_len { length t.old.map.now ≡ g.l }
    requires places_len { length t.old.places.now ≡ pieces_for g.l }
    requires numbers_len { length t.old.numbers.now ≡ pieces_for g.l }
    requires used_len { length t.old.used.now ≡ used_bytes g.n }
    ensures lent { SameTables t.new t.old }
    ensures lengths { SameLengths t.new t.old }
    ensures value { (result ≡ walk_complete g (walked_log g.l (image_view g (sector_at image.now)) (record { number = number; tail = tail }))) × (result ≡ true → Left g (sector_at image.now) tail t.new.map.now t.new.places.now t.new.numbers.now t.new.used.now) }
{
    let map = &mut *t.map;
    let places = &mut *t.places;
    let numbers = &mut *t.numbers;
    let used = &mut *t.used;
    places.fill(0);
    walk_steps::walk_from(places, image, g, tail);
    if !all_taken(places) {
        return false;
    }
    walk_fill(image, places, map, numbers);
    agrees::log_agrees(g, map, places, numbers, used, tail, number)
}

// The branches of the sectors at these places.
pub fn count_branches(image: &[u8], places: &[u32]) -> u32
    requires places_len_bound { length places.now ≤ most_pieces }
    requires by_index { (p : ℕ) → p < length places.now → sector_bytes * at places.now p + sector_bytes ≤ length image.now }
    requires by_index_2 { (p : ℕ) → p < length places.now → at (words_of (sector_at image.now (at places.now p))) 6 ≤ branch_room }
    ensures { (result ≡ branch_word_count (sector_at image.now) (at places.now) (length places.now)) × (result ≤ 6144) }
{
    let mut count: u32 = 0;
    for place in places {
        let s = images::sector(image, *place as usize);
        count += map_sector::branch_count(s);
    }
    count
}
