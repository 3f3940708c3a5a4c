// The signed sectors of an image: each sector is read once, and what the signed ones say is listed.
#![tactic(auto)]

ghost use Rattle.std.specs.Prelude.{◌≡◌, cond, ℕ, ◌*◌, ◌≤◌, ◌<◌, length, set, drop, eqb};
ghost use Rattle.geometry.specs.Geometry.{sector_bytes, pieces_for, most_sectors, most_pieces};
ghost use Rattle.layout.specs.Bounded.{at};
ghost use Rattle.layout.specs.Word.{words_of};
ghost use Rattle.volume.specs.Tables.{sector_at, bit_at};
ghost use Rattle.volume.specs.Recover.{newest_closing, closed_up_to, image_view};
ghost use Rattle.signed.specs.Signed.{Listed, stepped, marked_above};

use geometry::Geometry;

// What was read of an image: where the list of its signed sectors begins, and the newest closing one with its number, 0 where there
// is none, as `newest_closing` and `closed_up_to` say in the clause.
#[derive(Clone, Copy)]
pub struct Signed {
    pub from: usize,
    pub tail: u32,
    pub number: u32,
}

// The number of a sector where it is closing, and 0 where it is not: 0 is below every number, so that one test serves for both.
fn closing_number(s: &[u8]) -> u32
    requires { length s.now ≡ sector_bytes }
    ensures { result ≡ cond (eqb (at (words_of s.now) 5) 1) (at (words_of s.now) 2) 0 }
{
    if !map_sector::is_closing(s) {
        return 0;
    }
    map_sector::number_of(s)
}

// Lists at i what sector k says.
fn list(s: &[u8], k: u32, i: usize, sectors: &mut [u16], numbers: &mut [u32], pieces: &mut [u8])
    requires s_len { length s.now ≡ sector_bytes }
    requires k_lt_most_sectors { k < most_sectors }
    requires s_bound { at (words_of s.now) 4 < most_pieces }
    requires i_in_bounds { i < length sectors.old }
    requires i_in_bounds_2 { i < length numbers.old }
    requires i_in_bounds_3 { i < length pieces.old }
    ensures { (sectors.new ≡ set sectors.old i k) × (numbers.new ≡ set numbers.old i (at (words_of s.now) 2)) × (pieces.new ≡ set pieces.old i (at (words_of s.now) 4)) }
{
    sectors[i] = k as u16;
    numbers[i] = map_sector::number_of(s);
    pieces[i] = map_sector::piece_of(s) as u8;
}

// Reads the image once, and lists its signed sectors with their numbers and pieces at the ends of three arrays, the last sector first.
// They are three, as `Listed` says in the clause: a struct of two, four and one bytes would take eight.
// Most sectors have no mark, and are passed over without a call.
pub fn read_signed(
    image: &[u8],
    g: Geometry,
    sectors: &mut [u16],
    numbers: &mut [u32],
    pieces: &mut [u8],
) -> Signed
    requires image_len { length image.now ≡ sector_bytes * g.n }
    requires le_n { 1 ≤ g.n }
    requires n_le_most_sectors { g.n ≤ most_sectors }
    requires l_bound { pieces_for g.l ≤ most_pieces }
    requires n_in_bounds { g.n ≤ length sectors.old }
    requires numbers_len { length numbers.old ≡ length sectors.old }
    requires pieces_len { length pieces.old ≡ length sectors.old }
    ensures { (result.from ≤ length sectors.old) × Listed (image_view g (sector_at image.now)) g.n (drop result.from sectors.new) (drop result.from numbers.new) (drop result.from pieces.new) × (result.tail ≡ newest_closing g.n (image_view g (sector_at image.now))) × (result.number ≡ closed_up_to g.n (image_view g (sector_at image.now))) }
{
    let mut from = sectors.len();
    let mut tail: u32 = 0;
    let mut highest: u32 = 0;
    'sectors: for k in 0..g.n {
        let s = images::sector(image, k as usize);
        if !map_sector::has_mark(s) {
            continue 'sectors;
        }
        if !map_sector::marked_valid(s, g) {
            continue 'sectors;
        }
        from -= 1;
        list(s, k, from, sectors, numbers, pieces);
        let number = closing_number(s);
        if highest < number {
            tail = k;
            highest = number;
        }
    }
    Signed {
        from,
        tail,
        number: highest,
    }
}

// Marks the uncommitted ones of the sectors that are listed: those numbered above c.
pub fn mark_above(sectors: &[u16], numbers: &[u32], c: u32, above: &mut [u8])
    requires numbers_len { length numbers.now ≡ length sectors.now }
    requires by_index { (i : ℕ) → i < length sectors.now → at sectors.now i < 8 * length above.old }
    ensures { bit_at above.new ≡ stepped (marked_above c) sectors.now numbers.now numbers.now (bit_at above.old) }
{
    'listed: for i in (0..sectors.len()).rev() {
        if numbers[i] <= c {
            continue 'listed;
        }
        bits::set_bit(above, sectors[i] as usize);
    }
}
