// What a whole commit leaves in the tables. It is called only when everything was stored, so that a cut leaves them as they came.
#![tactic(auto)]

ghost use Rattle.std.specs.Prelude.{◌≡◌, true, false, cond, not, ◌&&◌, ◌||◌, [], ℕ, suc, ◌+◌, ◌*◌, ◌≤◌, ◌<◌, ◌^◌, length, eqb};
ghost use Rattle.geometry.specs.Geometry.{pieces_for, used_bytes, geometry_fits};
ghost use Rattle.layout.specs.Bounded.{at, any_below, count_below, updates};
ghost use Rattle.layout.specs.Entry.{is_empty, sector_of};
ghost use Rattle.volume.specs.Tables.{bit_at, consistent};
ghost use Rattle.volume.specs.Commit.{committed_tables};
ghost use Rattle.lending.specs.Lending.{tables_filled, SameTables, SameLengths};
ghost use Rattle.pieces.specs.Arrays.{flagged, without, plan_of, change_of, Settling};

use lending::TablesMut;
use state::State;

// Frees the sector of an entry, if it has one: 0 is the image's word for none.
fn free_entry(used: &mut [u8], entry: u32)
    requires { is_empty entry ≡ false → sector_of entry < 8 * length used.old }
    ensures { bit_at used.new ≡ (λ k. bit_at used.old k && not (not (is_empty entry) && eqb k (sector_of entry))) }
{
    if entry == 0 {
        return;
    }
    bits::clear_bit(used, blocks::sector_of(entry) as usize);
}

// Frees the sectors that the named blocks had.
fn free_blocks(used: &mut [u8], map: &[u32], blocks: &[u32])
    requires by_index { (i : ℕ) → i < length blocks.now → at blocks.now i < length map.now }
    requires by_index_2 { (b : ℕ) → b < length map.now → is_empty (at map.now b) ≡ false → sector_of (at map.now b) < 8 * length used.old }
    ensures { bit_at used.new ≡ without (bit_at used.old) (λ i. not (is_empty (at map.now (at blocks.now i)))) (λ i. sector_of (at map.now (at blocks.now i))) (length blocks.now) }
{
    for b in blocks {
        free_entry(used, map[*b as usize]);
    }
}

// Frees the places of the pieces that were written.
fn free_places(used: &mut [u8], places: &[u32], written: &[u8])
    requires places_in_bounds { length places.now ≤ length written.now }
    requires by_index { (p : ℕ) → p < length places.now → at places.now p < 8 * length used.old }
    ensures { bit_at used.new ≡ without (bit_at used.old) (flagged written.now) (at places.now) (length places.now) }
{
    for (q, place) in places.iter().enumerate() {
        if written[q] != 1 {
            continue;
        }
        bits::clear_bit(used, *place as usize);
    }
}

// Marks the sectors that the commit took.
fn use_places(used: &mut [u8], taken: &[u32])
    requires { (i : ℕ) → i < length taken.now → at taken.now i < 8 * length used.old }
    ensures { bit_at used.new ≡ (λ k. bit_at used.old k || any_below (λ i. eqb k (at taken.now i)) (length taken.now)) }
{
    for k in taken {
        bits::set_bit(used, *k as usize);
    }
}

// Frees what the commit supersedes, and then marks what it took: a sector may be both.
fn change_used(t: &mut TablesMut<'_>, blocks: &[u32], taken: &[u32], written: &[u8])
    requires by_index { (i : ℕ) → i < length blocks.now → at blocks.now i < length t.old.map.now }
    requires by_index_2 { (b : ℕ) → b < length t.old.map.now → is_empty (at t.old.map.now b) ≡ false → sector_of (at t.old.map.now b) < 8 * length t.old.used.now }
    requires places_in_bounds { length t.old.places.now ≤ length written.now }
    requires by_index_3 { (p : ℕ) → p < length t.old.places.now → at t.old.places.now p < 8 * length t.old.used.now }
    requires by_index_4 { (i : ℕ) → i < length taken.now → at taken.now i < 8 * length t.old.used.now }
    ensures lent { SameTables t.new t.old }
    ensures map { t.new.map.now ≡ t.old.map.now }
    ensures places { t.new.places.now ≡ t.old.places.now }
    ensures numbers { t.new.numbers.now ≡ t.old.numbers.now }
    ensures used_len { length t.new.used.now ≡ length t.old.used.now }
    ensures used { bit_at t.new.used.now ≡ (λ k. without (without (bit_at t.old.used.now) (λ i. not (is_empty (at t.old.map.now (at blocks.now i)))) (λ i. sector_of (at t.old.map.now (at blocks.now i))) (length blocks.now)) (flagged written.now) (at t.old.places.now) (length t.old.places.now) k || any_below (λ i. eqb k (at taken.now i)) (length taken.now)) }
{
    let map = &mut *t.map;
    let places = &mut *t.places;
    let used = &mut *t.used;
    free_blocks(used, map, blocks);
    free_places(used, places, written);
    use_places(used, taken);
}

// The new entries of the named blocks.
fn change_map(map: &mut [u32], blocks: &[u32], news: &[u32])
    requires blocks_in_bounds { length blocks.now ≤ length news.now }
    requires by_index { (i : ℕ) → i < length blocks.now → at blocks.now i < length map.old }
    ensures { at map.new ≡ updates (at map.old) (at blocks.now) (at news.now) (length blocks.now) }
{
    for (i, b) in blocks.iter().enumerate() {
        map[*b as usize] = news[i];
    }
}

// The new place and number of each piece that was written.
fn change_live(
    places: &mut [u32],
    numbers: &mut [u32],
    written: &[u8],
    taken: &[u32],
    count: usize,
    number: u32,
)
    requires places_len { length places.old ≡ length numbers.old }
    requires places_in_bounds { length places.old ≤ length written.now }
    requires by_index { (p : ℕ) → length places.old ≤ p → flagged written.now p ≡ false }
    requires places_in_bounds_2 { count + count_below (flagged written.now) (length places.old) ≤ length taken.now }
    requires places_bound { number + count_below (flagged written.now) (length places.old) < 2 ^ 32 }
    ensures { (at places.new ≡ (λ p. cond (flagged written.now p) (at taken.now (count + count_below (flagged written.now) p)) (at places.old p))) × (at numbers.new ≡ (λ p. cond (flagged written.now p) (suc (number + count_below (flagged written.now) p)) (at numbers.old p))) }
{
    let mut next = number;
    let mut k = count;
    for p in 0..places.len() {
        if written[p] != 1 {
            continue;
        }
        next += 1;
        places[p] = taken[k];
        numbers[p] = next;
        k += 1;
    }
}

// All tables, after a whole commit.
pub fn settle(
    s: State,
    t: &mut TablesMut<'_>,
    blocks: &[u32],
    news: &[u32],
    taken: &[u32],
    count: usize,
    written: &[u8],
)
    requires geometry_value { geometry_fits s.geometry ≡ true }
    requires map_len { length t.old.map.now ≡ s.geometry.l }
    requires places_len { length t.old.places.now ≡ pieces_for s.geometry.l }
    requires numbers_len { length t.old.numbers.now ≡ pieces_for s.geometry.l }
    requires used_len { length t.old.used.now ≡ used_bytes s.geometry.n }
    requires number_value { consistent s.geometry (tables_filled t.old) s.tail s.number ≡ true }
    requires settling { Settling s.geometry s.number blocks.now news.now taken.now count written.now }
    ensures lent { SameTables t.new t.old }
    ensures lengths { SameLengths t.new t.old }
    ensures value { tables_filled t.new ≡ committed_tables s (tables_filled t.old) (plan_of [] written.now 0 count taken.now 0) (change_of blocks.now news.now count) }
{
    change_used(t, blocks, taken, written);
    change_map(t.map, blocks, news);
    change_live(t.places, t.numbers, written, taken, count, s.number);
}
