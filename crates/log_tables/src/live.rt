// The live map sector of every piece, found in one pass over what is listed of the signed sectors.
ghost use Rattle.std.specs.Prelude.{◌≡◌, cond, List, ℕ, ◌≤◌, ◌<◌, length, set, ltb};
ghost use Rattle.layout.specs.Bounded.{at};
ghost use Rattle.signed.specs.Signed.{stepped};
ghost use Rattle.log_tables.specs.LogTables.{raised};

// Puts sector k in as the live sector of piece q, if it is newer than the one that stands there.
fn raise(places: &mut [u32], numbers: &mut [u32], q: usize, k: u32, number: u32)
    requires q_in_bounds { q < length places.old }
    requires q_in_bounds_2 { q < length numbers.old }
    ensures { (places.new ≡ cond (ltb (at numbers.old q) number) (set places.old q k) places.old) × (numbers.new ≡ cond (ltb (at numbers.old q) number) (set numbers.old q number) numbers.old) }
{
    if number <= numbers[q] {
        return;
    }
    places[q] = k;
    numbers[q] = number;
}

// The sector that is listed at i, where it is not numbered above c.
fn raise_listed(
    sectors: &[u16],
    numbered: &[u32],
    pieces: &[u8],
    c: u32,
    i: usize,
    places: &mut [u32],
    numbers: &mut [u32],
)
    requires i_in_bounds { i < length sectors.now }
    requires i_in_bounds_2 { i < length numbered.now }
    requires i_in_bounds_3 { i < length pieces.now }
    requires numbers_len { length numbers.old ≡ length places.old }
    requires i_in_bounds_4 { at pieces.now i < length places.old }
    ensures { ◌≡◌ {A = List ℕ × List ℕ} (places.new, numbers.new) (raised c (at sectors.now i) (at numbered.now i) (at pieces.now i) (places.old, numbers.old)) }
{
    let number = numbered[i];
    if c < number {
        return;
    }
    raise(
        places,
        numbers,
        pieces[i] as usize,
        sectors[i] as u32,
        number,
    );
}

// For each piece its sector with the highest number up to c, and that number, in tables that have none yet.
pub fn find_live(
    sectors: &[u16],
    numbered: &[u32],
    pieces: &[u8],
    c: u32,
    places: &mut [u32],
    numbers: &mut [u32],
)
    requires numbered_len { length numbered.now ≡ length sectors.now }
    requires pieces_len { length pieces.now ≡ length sectors.now }
    requires numbers_len { length numbers.old ≡ length places.old }
    requires by_index { (i : ℕ) → i < length pieces.now → at pieces.now i < length places.old }
    ensures { ◌≡◌ {A = List ℕ × List ℕ} (places.new, numbers.new) (stepped (raised c) sectors.now numbered.now pieces.now (places.old, numbers.old)) }
{
    for i in (0..sectors.len()).rev() {
        raise_listed(sectors, numbered, pieces, c, i, places, numbers);
    }
}
