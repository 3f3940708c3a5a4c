// The entries of a map sector, words 32 to 127: put into its place straight from the map's words and from the new entries of the named
// blocks.
#![tactic(auto)]

ghost use Rattle.std.specs.Prelude.{◌≡◌, ℕ, ◌+◌, ◌*◌, ◌≤◌, ◌<◌, length};
ghost use Rattle.std.proofs.lemmas.List.Edits.{sets};
ghost use Rattle.geometry.specs.Geometry.{sector_bytes, entries_per_piece, most_pieces};
ghost use Rattle.layout.specs.Bounded.{at, list_from, updates};
ghost use Rattle.layout.specs.Word.{bytes_of};
ghost use Rattle.volume.specs.Tables.{piece_entries};
ghost use Rattle.piece_entries.specs.Cursor.{Cursor};

use geometry::Geometry;

// The word of a map sector that has its first entry.
const FIRST: usize = 32;

// The entries of piece p as the map has them, zero past its end.
fn put_piece(s: &mut [u8], map: &[u32], p: u32)
    requires s_len { length s.old ≡ sector_bytes }
    requires p_lt_most_pieces { p < most_pieces }
    ensures { s.new ≡ sets s.old 128 (bytes_of (list_from (at map.now) (entries_per_piece * p) entries_per_piece)) }
{
    let first = (Geometry::ENTRIES * p) as usize;
    let start = first.min(map.len());
    let end = (first + Geometry::PIECE_ENTRIES).min(map.len());
    let held = end - start;
    words::put_words(s, FIRST, &map[start..end]);
    words::put_zeros(s, FIRST + held, Geometry::PIECE_ENTRIES - held);
}

// The entries of piece p after the change of the named blocks. Its blocks stand from `from` on; answers where they end.
pub fn put_entries(
    s: &mut [u8],
    l: u32,
    p: u32,
    map: &[u32],
    blocks: &[u32],
    news: &[u32],
    from: usize,
) -> usize
    requires s_len { length s.old ≡ sector_bytes }
    requires map_len_bound { length map.now ≤ l }
    requires p_lt_most_pieces { p < most_pieces }
    requires blocks_in_bounds { length blocks.now ≤ length news.now }
    requires by_index { (i : ℕ) → i < length blocks.now → at blocks.now i < l }
    requires cursor { Cursor blocks.now p from }
    ensures { Cursor blocks.now (p + 1) result × (s.new ≡ sets s.old 128 (bytes_of (piece_entries l (updates (at map.now) (at blocks.now) (at news.now) (length blocks.now)) p))) }
{
    put_piece(s, map, p);
    let first = Geometry::ENTRIES * p;
    let end = first + Geometry::ENTRIES;
    for i in from..blocks.len() {
        let b = blocks[i];
        if end <= b {
            return i;
        }
        let here = (b - first) as usize;
        words::put_word(s, FIRST + here, news[i]);
    }
    blocks.len()
}
