// The map that the live map sectors hold.
ghost use Rattle.std.specs.Prelude.{◌≡◌, List, ℕ, ◌+◌, ◌*◌, ◌≤◌, ◌<◌, length};
ghost use Rattle.geometry.specs.Geometry.{sector_bytes, piece_of, index_of, entries_per_piece};
ghost use Rattle.layout.specs.Bounded.{at, list_from};
ghost use Rattle.layout.specs.Word.{words_of};
ghost use Rattle.layout.specs.MapSector.{entry_words};
ghost use Rattle.volume.specs.Tables.{sector_at};
ghost use Rattle.laws.proofs.Filling.{Filled};

use geometry::Geometry;

// The entries of one piece, from block `first` on, as the sector s has them.
fn fill_piece(s: &[u8], map: &mut [u32], first: usize, count: usize)
    requires s_len { length s.now ≡ sector_bytes }
    requires count_le_entries_per_piece { count ≤ entries_per_piece }
    requires count_in_bounds { first + count ≤ length map.old }
    ensures { (f : ℕ → ℕ) (old : List ℕ) → Filled f old first map.old → ((i : ℕ) → i < count → f (first + i) ≡ at (entry_words (words_of s.now)) i) → Filled f old (first + count) map.new }
{
    for i in 0..count {
        map[first + i] = map_sector::entry_at(s, i);
    }
}

// The entries of the next piece, whose sector is at place, from block `first` on. How many they are: a whole piece, or all that are left.
fn fill_next(image: &[u8], place: u32, map: &mut [u32], first: usize) -> usize
    requires sector_bytes_in_bounds { sector_bytes * place + sector_bytes ≤ length image.now }
    requires first_in_bounds { first < length map.old }
    ensures { (1 ≤ result) × (result ≤ entries_per_piece) × (first + result ≤ length map.old) × (first + result < length map.old → result ≡ entries_per_piece) × ((f : ℕ → ℕ) (old : List ℕ) → Filled f old first map.old → ((i : ℕ) → i < entries_per_piece → f (first + i) ≡ at (entry_words (words_of (sector_at image.now place))) i) → Filled f old (first + result) map.new) }
{
    let s = images::sector(image, place as usize);
    let count = Geometry::PIECE_ENTRIES.min(map.len() - first);
    fill_piece(s, map, first, count);
    count
}

// Each piece in turn, until the map is full.
pub fn fill_map(image: &[u8], places: &[u32], map: &mut [u32])
    requires map_len_bound { length map.old ≤ entries_per_piece * length places.now }
    requires by_index { (p : ℕ) → p < length places.now → sector_bytes * at places.now p + sector_bytes ≤ length image.now }
    ensures { map.new ≡ list_from (λ b. at (entry_words (words_of (sector_at image.now (at places.now (piece_of b))))) (index_of b)) 0 (length map.old) }
{
    let mut first = 0;
    for place in places {
        if first == map.len() {
            break;
        }
        first += fill_next(image, *place, map, first);
    }
}
