// The new entries of the blocks that a commit writes.
#![tactic(auto)]

ghost use Rattle.std.specs.Prelude.{◌≡◌, ◌++◌, ℕ, ◌*◌, ◌≤◌, ◌<◌, ◌^◌, length, drop};
ghost use Rattle.geometry.specs.Geometry.{sector_bytes};
ghost use Rattle.layout.specs.Bounded.{at, list_from};
ghost use Rattle.layout.specs.Entry.{entry_for};
ghost use Rattle.volume.specs.Tables.{sector_at};

// The entry of each block that is written: the place of its data sector, with bit 31 set where it is flipped.
pub fn entries_for(bytes: &[u8], places: &[u32], count: usize, entries: &mut [u32])
    requires bytes_len { length bytes.now ≡ sector_bytes * count }
    requires count_in_bounds { count ≤ length places.now }
    requires count_in_bounds_2 { count ≤ length entries.old }
    requires by_index { (i : ℕ) → i < count → at places.now i < 2 ^ 31 }
    ensures { entries.new ≡ list_from (λ i. entry_for (sector_at bytes.now i) (at places.now i)) 0 count ++ drop count entries.old }
{
    for i in 0..count {
        entries[i] = blocks::entry_for(images::sector(bytes, i), places[i]);
    }
}
