// Whether tables that were found are sound.
ghost use Rattle.std.specs.Prelude.{◌≡◌, true, ◌-◌, length};
ghost use Rattle.geometry.specs.Geometry.{within, pieces_for, used_bytes, geometry_fits};
ghost use Rattle.layout.specs.Bounded.{at, all};
ghost use Rattle.volume.specs.Tables.{bit_at, named_by, used_by, consistent};
ghost use Rattle.soundness.specs.Parts.{names_sound};
ghost use Rattle.log_tables.specs.LogTables.{tables_named};

use geometry::Geometry;

// Makes the used map of the names, which lie inside; about so many entries are not empty. The marks of a small volume are made in an
// array of their own.
fn make_used(g: Geometry, map: &[u32], places: &[u32], count: u32, used: &mut [u8])
    requires g_value { geometry_fits g ≡ true }
    requires map_len { length map.now ≡ g.l }
    requires places_len { length places.now ≡ pieces_for g.l }
    requires used_len { length used.old ≡ used_bytes g.n }
    requires places_value { all (within 1 (g.n - 1)) (named_by g.l (at map.now) (at places.now)) ≡ true }
    ensures { bit_at used.new ≡ used_by (named_by g.l (at map.now) (at places.now)) }
{
    if g.n <= Geometry::SMALL {
        let mut marks = [0u8; Geometry::SMALL_USED_BYTES];
        names::mark_few(&mut marks, map, places);
        used.copy_from_slice(&marks[..used.len()]);
        return;
    }
    used.fill(0);
    names::mark_all(used, map, places, count);
}

// Makes the used map of the names, and says whether they lie inside, none stands twice and P sectors are free.
fn mark_used(g: Geometry, map: &[u32], places: &[u32], used: &mut [u8]) -> bool
    requires g_value { geometry_fits g ≡ true }
    requires map_len { length map.now ≡ g.l }
    requires places_len { length places.now ≡ pieces_for g.l }
    requires used_len { length used.old ≡ used_bytes g.n }
    ensures { (result ≡ names_sound g (at map.now) (at places.now) (used_by (named_by g.l (at map.now) (at places.now)))) × (result ≡ true → bit_at used.new ≡ used_by (named_by g.l (at map.now) (at places.now))) }
{
    let Some(count) = names::judge_names(g, map, places) else {
        return false;
    };
    make_used(g, map, places, count, used);
    let free = bits::count_free(used, g.n);
    soundness::once_with_room(g, count, free)
}

// Marks the sectors that the tables name in the used map, and says whether the tables are then sound. They go one by one, since the used map
// alone is filled: as one value the others would need clauses that they stay.
pub fn log_agrees(
    g: Geometry,
    map: &[u32],
    places: &[u32],
    numbers: &[u32],
    used: &mut [u8],
    tail: u32,
    number: u32,
) -> bool
    requires g_value { geometry_fits g ≡ true }
    requires map_len { length map.now ≡ g.l }
    requires places_len { length places.now ≡ pieces_for g.l }
    requires numbers_len { length numbers.now ≡ pieces_for g.l }
    requires used_len { length used.old ≡ used_bytes g.n }
    ensures { (result ≡ consistent g (tables_named g.l map.now places.now numbers.now) tail number) × (result ≡ true → bit_at used.new ≡ used_by (named_by g.l (at map.now) (at places.now))) }
{
    if !mark_used(g, map, places, used) {
        return false;
    }
    numbers::numbers_agree(places, numbers, tail, number)
}
