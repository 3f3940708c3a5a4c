// Map sectors: whether a sector is one ("signed"), what one says, and how one is made. Word 0 is the mark, 1 the balance, 2 the
// number, 3 zero, 4 the piece, 5 the kind, 6 the count of branches, 7 L, 8 to 31 the branches, 32 to 127 the entries.
#![tactic(auto)]

ghost use Rattle.std.specs.Prelude.{◌≡◌, true, ◌&&◌, ◌*◌, ◌-◌, ◌≤◌, ◌<◌, length, drop, eqb};
ghost use Rattle.geometry.specs.Geometry.{sector_bytes, pieces_for, entries_per_piece, branch_room};
ghost use Rattle.layout.specs.Bounded.{at, all, is_zero};
ghost use Rattle.layout.specs.Word.{words_of, starts_with};
ghost use Rattle.layout.specs.MapSector.{map_mark, branch_words, entry_words, branches_fit, valid};
ghost use Rattle.map_sector.specs.Header.{fields_fit, header_fits, branch_fits};

use geometry::Geometry;

// The sector's number.
pub fn number_of(s: &[u8]) -> u32
    requires { length s.now ≡ sector_bytes }
    ensures { result ≡ at (words_of s.now) 2 }
{
    words::word_at(s, 2)
}

pub fn piece_of(s: &[u8]) -> u32
    requires { length s.now ≡ sector_bytes }
    ensures { result ≡ at (words_of s.now) 4 }
{
    words::word_at(s, 4)
}

pub fn is_closing(s: &[u8]) -> bool
    requires { length s.now ≡ sector_bytes }
    ensures { result ≡ eqb (at (words_of s.now) 5) 1 }
{
    words::word_at(s, 5) == 1
}

pub fn branch_count(s: &[u8]) -> u32
    requires { length s.now ≡ sector_bytes }
    ensures { result ≡ at (words_of s.now) 6 }
{
    words::word_at(s, 6)
}

// Branch i: word 8 + i.
pub fn branch_at(s: &[u8], i: usize) -> u32
    requires s_len { length s.now ≡ sector_bytes }
    requires i_lt_branch_room { i < branch_room }
    ensures { result ≡ at (branch_words (words_of s.now)) i }
{
    words::word_at(s, 8 + i)
}

// Entry i of the piece: word 32 + i.
pub fn entry_at(s: &[u8], i: usize) -> u32
    requires s_len { length s.now ≡ sector_bytes }
    requires i_lt_entries_per_piece { i < entries_per_piece }
    ensures { result ≡ at (entry_words (words_of s.now)) i }
{
    words::word_at(s, 32 + i)
}

fn fields_fit(
    l: u32,
    number: u32,
    reserved: u32,
    piece: u32,
    kind: u32,
    count: u32,
    blocks: u32,
) -> bool
    ensures { result ≡ fields_fit l number reserved piece kind count blocks }
{
    if number < 1 {
        return false;
    }
    if reserved != 0 {
        return false;
    }
    if l as u64 <= Geometry::ENTRIES as u64 * piece as u64 {
        return false;
    }
    if 1 < kind {
        return false;
    }
    if Geometry::BRANCHES < count {
        return false;
    }
    blocks == l
}

// Whether words 2 to 7 are as in a map sector of a volume of l blocks.
fn header_fits(s: &[u8], l: u32) -> bool
    requires { length s.now ≡ sector_bytes }
    ensures { result ≡ header_fits l (words_of s.now) }
{
    fields_fit(
        l,
        words::word_at(s, 2),
        words::word_at(s, 3),
        words::word_at(s, 4),
        words::word_at(s, 5),
        words::word_at(s, 6),
        words::word_at(s, 7),
    )
}

// Whether all fitted so far, and w fits as branch i of so many: a sector from 1 to n - 1, and past the last one zero. Without a jump, so
// that the compiler compares several at a time.
fn still_fits(good: bool, w: u32, i: u32, count: u32, n: u32) -> bool
    requires { 1 ≤ n }
    ensures { result ≡ (good && branch_fits n count i w) }
{
    good & (w < n) & ((w != 0) == (i < count))
}

// Whether the branches are sectors from 1 to n - 1, and the unused ones zero. All are looked at in one way, however many are used.
fn branches_fit(s: &[u8], n: u32) -> bool
    requires s_len { length s.now ≡ sector_bytes }
    requires le_n { 1 ≤ n }
    requires s_bound { at (words_of s.now) 6 ≤ branch_room }
    ensures { result ≡ branches_fit n (at (words_of s.now) 6) (branch_words (words_of s.now)) }
{
    let count = words::word_at(s, 6);
    let mut good = true;
    for i in 0..Geometry::BRANCHES {
        good = still_fits(good, branch_at(s, i as usize), i, count, n);
    }
    good
}

// Whether the entries past block l - 1 are zero.
fn entries_fit(s: &[u8], l: u32) -> bool
    requires s_len { length s.now ≡ sector_bytes }
    requires s_bound { at (words_of s.now) 4 < pieces_for l }
    ensures { result ≡ all is_zero (drop (l - entries_per_piece * at (words_of s.now) 4) (entry_words (words_of s.now))) }
{
    let held = l - Geometry::ENTRIES * words::word_at(s, 4);
    if Geometry::ENTRIES <= held {
        return true;
    }
    words::words_zero(s, 32 + held as usize, Geometry::WORDS)
}

// Whether s begins with the map mark.
pub fn has_mark(s: &[u8]) -> bool
    ensures { result ≡ starts_with map_mark s.now }
{
    marks::starts_with(s, &marks::MAP_MARK)
}

// Of a sector with the mark: whether it is signed. The sum comes last, being the dearest test.
pub fn marked_valid(s: &[u8], g: Geometry) -> bool
    requires s_len { length s.now ≡ sector_bytes }
    requires le_n { 1 ≤ g.n }
    requires s_value { starts_with map_mark s.now ≡ true }
    ensures { result ≡ valid g s.now (words_of s.now) }
{
    if !header_fits(s, g.l) {
        return false;
    }
    if !branches_fit(s, g.n) {
        return false;
    }
    if !entries_fit(s, g.l) {
        return false;
    }
    sums::word_sum(s) == 0
}

// Whether s is a map sector of a volume of n sectors and l blocks. Most sectors are decided by their first bytes; the sum comes last.
pub fn is_valid(s: &[u8], g: Geometry) -> bool
    requires s_len { length s.now ≡ sector_bytes }
    requires le_n { 1 ≤ g.n }
    ensures { result ≡ valid g s.now (words_of s.now) }
{
    if !has_mark(s) {
        return false;
    }
    marked_valid(s, g)
}
