// Map sectors made in their place: the words are put there in order, with zero for the balance, which is put in last.
#![tactic(auto)]

ghost use Rattle.std.specs.Prelude.{◌≡◌, [], ◌∷◌, ◌++◌, ℕ, ◌+◌, ◌-◌, ◌≤◌, ◌<◌, length, replicate};
ghost use Rattle.std.proofs.lemmas.List.Edits.{sets};
ghost use Rattle.geometry.specs.Geometry.{sector_bytes, branch_room, most_pieces};
ghost use Rattle.layout.specs.Bounded.{at, updates};
ghost use Rattle.layout.specs.Word.{word_bytes, words_of, bytes_of, word_sum, balance};
ghost use Rattle.layout.specs.MapSector.{map_mark, kind_of, encoded};
ghost use Rattle.volume.specs.Tables.{piece_entries};
ghost use Rattle.piece_entries.specs.Cursor.{Cursor};

use geometry::Geometry;

// Words 0 to 7, with zero for the balance. The kind is 1 for a closing sector, 0 for a member.
fn put_header(s: &mut [u8], l: u32, number: u32, piece: u32, closing: bool, branches: u32)
    requires { length s.old ≡ sector_bytes }
    ensures { s.new ≡ sets s.old 0 (map_mark ++ bytes_of (0 ∷ number ∷ 0 ∷ piece ∷ kind_of closing ∷ branches ∷ l ∷ [])) }
{
    marks::put_mark(s, &marks::MAP_MARK);
    words::put_word(s, 1, 0);
    words::put_word(s, 2, number);
    words::put_word(s, 3, 0);
    words::put_word(s, 4, piece);
    words::put_word(s, 5, u32::from(closing));
    words::put_word(s, 6, branches);
    words::put_word(s, 7, l);
}

// Words 8 to 31: the branches, the unused ones zero.
fn put_branches(s: &mut [u8], branches: &[u32])
    requires s_len { length s.old ≡ sector_bytes }
    requires branches_len_bound { length branches.now ≤ branch_room }
    ensures { s.new ≡ sets s.old 32 (bytes_of (branches.now ++ replicate (branch_room - length branches.now) 0)) }
{
    let count = branches.len();
    words::put_words(s, 8, branches);
    words::put_zeros(s, 8 + count, Geometry::BRANCH_ROOM - count);
}

// Words 32 to 127, the entries of the piece, and last the balance of all words that then stand there.
fn put_rest(
    s: &mut [u8],
    l: u32,
    piece: u32,
    map: &[u32],
    blocks: &[u32],
    news: &[u32],
    from: usize,
) -> usize
    requires s_len { length s.old ≡ sector_bytes }
    requires map_len_bound { length map.now ≤ l }
    requires piece_lt_most_pieces { piece < most_pieces }
    requires blocks_in_bounds { length blocks.now ≤ length news.now }
    requires by_index { (i : ℕ) → i < length blocks.now → at blocks.now i < l }
    requires cursor { Cursor blocks.now piece from }
    ensures { Cursor blocks.now (piece + 1) result × (let laid = sets s.old 128 (bytes_of (piece_entries l (updates (at map.now) (at blocks.now) (at news.now) (length blocks.now)) piece)) in s.new ≡ sets laid 4 (word_bytes (balance (word_sum (words_of laid))))) }
{
    let next = piece_entries::put_entries(s, l, piece, map, blocks, news, from);
    sums::put_balance(s);
    next
}

// Fills s with the map sector of a piece of a volume of l blocks: the map's entries, and the new ones of the named blocks. The piece's blocks
// stand from `from` on; answers where they end.
pub fn put_map(
    s: &mut [u8],
    l: u32,
    number: u32,
    piece: u32,
    closing: bool,
    branches: &[u32],
    map: &[u32],
    blocks: &[u32],
    news: &[u32],
    from: usize,
) -> usize
    requires s_len { length s.old ≡ sector_bytes }
    requires piece_lt_most_pieces { piece < most_pieces }
    requires branches_len_bound { length branches.now ≤ branch_room }
    requires map_len_bound { length map.now ≤ l }
    requires blocks_in_bounds { length blocks.now ≤ length news.now }
    requires by_index { (i : ℕ) → i < length blocks.now → at blocks.now i < l }
    requires cursor { Cursor blocks.now piece from }
    ensures { Cursor blocks.now (piece + 1) result × (s.new ≡ encoded l (record { number = number; piece = piece; closing = closing; branches = branches.now; entries = piece_entries l (updates (at map.now) (at blocks.now) (at news.now) (length blocks.now)) piece })) }
{
    put_header(s, l, number, piece, closing, branches.len() as u32);
    put_branches(s, branches);
    put_rest(s, l, piece, map, blocks, news, from)
}
