// Sound tables ("consistent"), as a call checks them before it changes anything.
#![tactic(auto)]

ghost use Rattle.std.specs.Prelude.{◌≡◌, [], true, ◌&&◌, ℕ, ◌+◌, ◌*◌, ◌≤◌, ◌<◌, length, eqb, leb};
ghost use Rattle.std.specs.Bool.{beq};
ghost use Rattle.lending.specs.Lending.{Sized, tables_in};
ghost use Rattle.geometry.specs.Geometry.{most_sectors, pieces_for, used_bytes, geometry_fits, most_blocks, most_pieces, most_used_bytes};
ghost use Rattle.geometry.specs.SizeClasses.{small_sectors, small_used_bytes};
ghost use Rattle.layout.specs.Bounded.{at, all_below, always, gathered};
ghost use Rattle.layout.specs.Entry.{sector_of};
ghost use Rattle.volume.specs.Tables.{bit_at, used_by, tables_of, free_sectors, consistent};
ghost use Rattle.names.specs.Marked.{with_entries};
ghost use Rattle.soundness.specs.Parts.{names_sound};

use geometry::Geometry;
use lending::Tables;

// Whether two used maps have the same bits. All bytes are looked at, so that the compiler compares several at a time.
fn bits_agree(used: &[u8], marks: &[u8]) -> bool
    requires { length used.now ≤ length marks.now }
    ensures { result ≡ all_below (λ k. beq (bit_at used.now k) (bit_at marks.now k)) (8 * length used.now) }
{
    let mut good = true;
    for (i, byte) in used.iter().enumerate() {
        good &= *byte == marks[i];
    }
    good
}

// Whether no sector is named twice, and P are free. Names that are all different take as many sectors as they are, and sector 0 is one
// more.
pub fn once_with_room(g: Geometry, count: u32, free: u32) -> bool
    requires count_bound { count ≤ most_blocks + most_pieces }
    requires free_le_most_sectors { free ≤ most_sectors }
    ensures { result ≡ (eqb (free + count + 1) g.n && leb (pieces_for g.l) free) }
{
    if free + count + 1 != g.n {
        return false;
    }
    Geometry::pieces_for(g.l) <= free
}

// Whether the used bits are exactly sector 0 and the names, which are marked in a map of N bytes of their own and then compared. About so
// many entries are not empty. The map of a small volume is cleared sooner, and marked in another way.
fn marked_bits_agree<const N: usize>(t: &Tables<'_>, count: u32) -> bool
    requires bytes_nonzero { 0 < N }
    requires bytes_bound { N ≤ most_used_bytes }
    requires used_len_bound { length t.now.used.now ≤ N }
    requires by_index { (q : ℕ) → q < length t.now.places.now → at t.now.places.now q < 8 * N }
    requires by_index_2 { (b : ℕ) → b < length t.now.map.now → sector_of (at t.now.map.now b) < 8 * N }
    ensures { result ≡ all_below (λ k. beq (bit_at t.now.used.now k) (used_by (with_entries (at t.now.map.now) (length t.now.map.now) (gathered always (at t.now.places.now) [] (length t.now.places.now))) k)) (8 * length t.now.used.now) }
{
    let mut marks = [0u8; N];
    if N == Geometry::SMALL_USED_BYTES {
        names::mark_few(&mut marks, t.map, t.places);
    } else {
        names::mark_all(&mut marks, t.map, t.places, count);
    }
    bits_agree(t.used, &marks)
}

// The same, by the size of the volume.
fn named_bits_agree(n: u32, t: &Tables<'_>, count: u32) -> bool
    requires n_le_most_sectors { n ≤ most_sectors }
    requires used_len { length t.now.used.now ≡ used_bytes n }
    requires by_index { (q : ℕ) → q < length t.now.places.now → at t.now.places.now q < n }
    requires by_index_2 { (b : ℕ) → b < length t.now.map.now → sector_of (at t.now.map.now b) < n }
    ensures { result ≡ all_below (λ k. beq (bit_at t.now.used.now k) (used_by (with_entries (at t.now.map.now) (length t.now.map.now) (gathered always (at t.now.places.now) [] (length t.now.places.now))) k)) (8 * length t.now.used.now) }
{
    if n <= Geometry::SMALL {
        return marked_bits_agree::<{ Geometry::SMALL_USED_BYTES }>(t, count);
    }
    marked_bits_agree::<{ Geometry::MOST_USED_BYTES }>(t, count)
}

// Whether the names lie inside and stand once, the used bits are exactly theirs, and P sectors are free, of which the count is given.
fn names_agree(g: Geometry, t: &Tables<'_>, free: u32) -> bool
    requires g_value { geometry_fits g ≡ true }
    requires sized { Sized g t.now }
    requires free_value { free ≡ free_sectors g.n (bit_at t.now.used.now) }
    ensures { result ≡ names_sound g (at t.now.map.now) (at t.now.places.now) (bit_at t.now.used.now) }
{
    let Some(count) = names::judge_names(g, t.map, t.places) else {
        return false;
    };
    if !named_bits_agree(g.n, t, count) {
        return false;
    }
    once_with_room(g, count, free)
}

// Whether the tables are sound, in a used map with so many free sectors.
pub fn is_consistent(g: Geometry, t: &Tables<'_>, free: u32, tail: u32, number: u32) -> bool
    requires g_value { geometry_fits g ≡ true }
    requires sized { Sized g t.now }
    requires free_value { free ≡ free_sectors g.n (bit_at t.now.used.now) }
    ensures { result ≡ consistent g (tables_in t.now) tail number }
{
    if !names_agree(g, t, free) {
        return false;
    }
    numbers::numbers_agree(t.places, t.numbers, tail, number)
}
