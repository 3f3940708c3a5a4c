// The tables that a format or a recovery leaves: fresh ones, or zeros.
#![tactic(auto)]

ghost use Rattle.std.specs.Prelude.{◌≡◌, ◌*◌, ◌≤◌, ◌<◌, length, replicate, ltb};
ghost use Rattle.geometry.specs.Geometry.{pieces_for, most_pieces};
ghost use Rattle.lending.specs.Lending.{tables_held, lengths_held, tables_filled, SameLent, SameLengths, SameTables};
ghost use Rattle.volume.specs.Tables.{bit_at, zero_tables};
ghost use Rattle.volume.specs.Format.{format_tables};

use lending::{Memory, TablesMut};

// Marks sectors 0 to count - 1 in an empty used map.
fn mark_first(used: &mut [u8], count: u32)
    requires used_value { used.old ≡ replicate (length used.old) 0 }
    requires count_bound { count ≤ 8 * length used.old }
    ensures { bit_at used.new ≡ (λ k. ltb k count) }
{
    for k in 0..count {
        bits::set_bit(used, k as usize);
    }
}

// The tables of an empty volume: piece p in sector p + 1 with number p + 1, and no block written.
pub fn fresh_tables(t: &mut TablesMut<'_>, l: u32, pieces: u32)
    requires pieces_value { pieces ≡ pieces_for l }
    requires pieces_le_most_pieces { pieces ≤ most_pieces }
    requires places_len { length t.old.places.now ≡ pieces }
    requires numbers_len { length t.old.numbers.now ≡ pieces }
    requires pieces_bound { pieces < 8 * length t.old.used.now }
    ensures lent { SameTables t.new t.old }
    ensures lengths { SameLengths t.new t.old }
    ensures tables { tables_filled t.new ≡ format_tables l }
{
    t.map.fill(0);
    fill::count_up(t.places);
    fill::count_up(t.numbers);
    t.used.fill(0);
    mark_first(t.used, pieces + 1);
}

// Zeros, as a format or a recovery leaves where it does not come to its end.
pub fn zero_tables(t: &mut TablesMut<'_>)
    ensures lent { SameTables t.new t.old }
    ensures lengths { SameLengths t.new t.old }
    ensures tables { tables_filled t.new ≡ zero_tables }
{
    t.map.fill(0);
    t.places.fill(0);
    t.numbers.fill(0);
    t.used.fill(0);
}

// The fresh tables in all that a storing call is lent.
pub fn fresh_held(m: &mut Memory<'_>, l: u32, pieces: u32)
    requires pieces_value { pieces ≡ pieces_for l }
    requires pieces_le_most_pieces { pieces ≤ most_pieces }
    requires places_len { length m.old.places.now ≡ pieces }
    requires numbers_len { length m.old.numbers.now ≡ pieces }
    requires pieces_bound { pieces < 8 * length m.old.used.now }
    ensures lent { SameLent m.new m.old }
    ensures image { m.new.image.now ≡ m.old.image.now }
    ensures lengths { lengths_held m.new ≡ lengths_held m.old }
    ensures tables { tables_held m.new ≡ format_tables l }
{
    let mut t = TablesMut {
        map: &mut *m.map,
        places: &mut *m.places,
        numbers: &mut *m.numbers,
        used: &mut *m.used,
    };
    fresh_tables(&mut t, l, pieces);
}

// The zeros in all that a storing call is lent.
pub fn zero_held(m: &mut Memory<'_>)
    ensures lent { SameLent m.new m.old }
    ensures image { m.new.image.now ≡ m.old.image.now }
    ensures lengths { lengths_held m.new ≡ lengths_held m.old }
    ensures tables { tables_held m.new ≡ zero_tables }
{
    let mut t = TablesMut {
        map: &mut *m.map,
        places: &mut *m.places,
        numbers: &mut *m.numbers,
        used: &mut *m.used,
    };
    zero_tables(&mut t);
}
