// The live map sectors against the tables: refusal 5 of write, drop and park.
#![tactic(auto)]

ghost use Rattle.std.specs.Prelude.{◌≡◌, true, ◌&&◌, [], ℕ, ◌+◌, ◌*◌, ◌≤◌, ◌<◌, length, eqb};
ghost use Rattle.lending.specs.Lending.{seen};
ghost use Rattle.geometry.specs.Geometry.{sector_bytes, pieces_for, entries_per_piece, most_blocks, most_pieces};
ghost use Rattle.layout.specs.Bounded.{at, all_below, same};
ghost use Rattle.layout.specs.Word.{words_of};
ghost use Rattle.layout.specs.MapSector.{entry_words, decoded};
ghost use Rattle.volume.specs.Tables.{bit_at, sector_at, memory, tables_of, free_sectors, piece_entries, says_piece, live_valid};
ghost use Rattle.volume.specs.Format.{tables_fit};
ghost use Rattle.volume.specs.Calls.{view_of, state_fits, tables_agree};

use geometry::Geometry;
use lending::Tables;
use state::State;

// Whether the sector's entries are the ones given. All are looked at, so that the compiler compares several at a time.
fn entries_are<F: Fn(usize) -> u32>(s: &[u8], entry: F) -> bool
    requires s_len { length s.now ≡ sector_bytes }
    requires callable { (i : ℕ) → i < entries_per_piece → F.pre entry i }
    ensures { (wanted : ℕ → ℕ) → ((i e : ℕ) → i < entries_per_piece → F.post entry i e → e ≡ wanted i) → result ≡ all_below (λ i. eqb (at (entry_words (words_of s.now)) i) (wanted i)) entries_per_piece }
{
    let mut good = true;
    for i in 0..Geometry::PIECE_ENTRIES {
        good &= map_sector::entry_at(s, i) == entry(i);
    }
    good
}

// Whether the sector's entries are those of piece p in the map. The map may end before the last piece does.
fn entries_match(s: &[u8], map: &[u32], p: u32) -> bool
    requires s_len { length s.now ≡ sector_bytes }
    requires p_lt_most_pieces { p < most_pieces }
    ensures { result ≡ same (entry_words (words_of s.now)) (piece_entries (length map.now) (at map.now) p) }
{
    let first = (Geometry::ENTRIES * p) as usize;
    if first + Geometry::PIECE_ENTRIES <= map.len() {
        return entries_are(s, |i| map[first + i]);
    }
    // Past the end of the map the entries are zero.
    entries_are(s, |i| blocks::entry_of(map, first + i))
}

// Whether the sector is signed with this piece and number, and these entries.
fn says_piece(s: &[u8], g: Geometry, map: &[u32], p: u32, number: u32) -> bool
    requires s_len { length s.now ≡ sector_bytes }
    requires le_n { 1 ≤ g.n }
    requires map_len { length map.now ≡ g.l }
    requires p_lt_most_pieces { p < most_pieces }
    ensures { result ≡ says_piece (decoded g s.now) p number (piece_entries g.l (at map.now) p) }
{
    if !map_sector::is_valid(s, g) {
        return false;
    }
    if map_sector::piece_of(s) != p {
        return false;
    }
    if map_sector::number_of(s) != number {
        return false;
    }
    entries_match(s, map, p)
}

// Each live place is signed with its piece, number and entries.
pub fn live_valid(g: Geometry, image: &[u8], t: &Tables<'_>) -> bool
    requires le_n { 1 ≤ g.n }
    requires l_bound { pieces_for g.l ≤ most_pieces }
    requires image_len { length image.now ≡ sector_bytes * g.n }
    requires map_len { length t.now.map.now ≡ g.l }
    requires places_len { length t.now.places.now ≡ pieces_for g.l }
    requires numbers_len { length t.now.numbers.now ≡ pieces_for g.l }
    requires by_index { (q : ℕ) → q < pieces_for g.l → at t.now.places.now q < g.n }
    ensures { result ≡ live_valid g.l (tables_of t.now.map.now t.now.places.now t.now.numbers.now []) (view_of g (sector_at image.now)) }
{
    let pieces = Geometry::pieces_for(g.l);
    for p in 0..pieces {
        let q = p as usize;
        let s = images::sector(image, t.places[q] as usize);
        if !says_piece(s, g, t.map, p, t.numbers[q]) {
            return false;
        }
    }
    true
}

// Whether the tables are sound, in a used map with so many free sectors, and the live map sectors say what they say.
pub fn tables_agree(s: State, image: &[u8], t: &Tables<'_>, free: u32) -> bool
    requires used_value { state_fits s (seen image.now t.now) ≡ true }
    requires geometry_value { tables_fit (seen image.now t.now) s.geometry ≡ true }
    requires free_value { free ≡ free_sectors s.geometry.n (bit_at t.now.used.now) }
    ensures { result ≡ tables_agree s (seen image.now t.now) }
{
    let g = s.geometry;
    if !soundness::is_consistent(g, t, free, s.tail, s.number) {
        return false;
    }
    live_valid(g, image, t)
}
