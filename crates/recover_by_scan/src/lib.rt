// A recovery by a scan, once no refusal stops it.
#![tactic(auto)]

ghost use Rattle.std.specs.Prelude.{◌≡◌, true, ◌*◌, ◌≤◌, length, replicate};
ghost use Rattle.geometry.specs.Geometry.{sector_bytes, pieces_for, used_bytes, geometry_fits, most_sectors};
ghost use Rattle.lending.specs.Lending.{held, lengths_held, tables_held, SameLent};
ghost use Rattle.volume.specs.Tables.{bit_at, sector_at};
ghost use Rattle.volume.specs.Store.{after};
ghost use Rattle.volume.specs.Recover.{scan_finding, recovered, image_view};
ghost use Rattle.scan.specs.Scanned.{scan_found, ScanAbove};

use answer::{Answer, Loss};
use geometry::{Drive, Geometry};
use lending::Memory;
use scan::TablesMut;
use state::tail::Tail;
use state::{Outcome, State};

// The scan of the image that is lent, by the tables that are lent with it.
fn scan_held<const N: usize>(
    m: &mut Memory<'_>,
    g: Geometry,
    above: &mut [u8],
) -> Result<Tail, Loss>
    requires n_le_size { g.n ≤ N }
    requires size_le_most_sectors { N ≤ most_sectors }
    requires g_value { geometry_fits g ≡ true }
    requires image_len { length m.old.image.now ≡ sector_bytes * g.n }
    requires map_len { length m.old.map.now ≡ g.l }
    requires places_len { length m.old.places.now ≡ pieces_for g.l }
    requires numbers_len { length m.old.numbers.now ≡ pieces_for g.l }
    requires used_len { length m.old.used.now ≡ used_bytes g.n }
    requires n_bound { g.n ≤ 8 * length above.old }
    requires above_value { above.old ≡ replicate (length above.old) 0 }
    ensures lent { SameLent m.new m.old }
    ensures image { m.new.image.now ≡ m.old.image.now }
    ensures lengths { lengths_held m.new ≡ lengths_held m.old }
    ensures value { (scan_found result g.n (image_view g (sector_at m.old.image.now)) (sector_at m.old.image.now 0) (tables_held m.new) ≡ scan_finding g (image_view g (sector_at m.old.image.now)) (sector_at m.old.image.now 0)) × ScanAbove result (image_view g (sector_at m.old.image.now)) (bit_at above.new) }
{
    let image = &mut *m.image;
    let mut t = TablesMut {
        map: &mut *m.map,
        places: &mut *m.places,
        numbers: &mut *m.numbers,
        used: &mut *m.used,
    };
    scan::scan_within::<N>(image, g, &mut t, above)
}

// The log as a scan finds it, and the volume running on it; or the refusal, with tables of zeros.
// A volume of at most N sectors, of which there are bits in so many bytes; each size has a frame of its own.
#[inline(never)]
pub fn by_scan<const N: usize, const BYTES: usize>(
    m: &mut Memory<'_>,
    g: Geometry,
    drive: Drive,
    allowance: u32,
) -> Outcome
    requires n_le_size { g.n ≤ N }
    requires size_le_most_sectors { N ≤ most_sectors }
    requires size_value { N ≡ 8 * BYTES }
    requires g_value { geometry_fits g ≡ true }
    requires image_len { length m.old.image.now ≡ sector_bytes * g.n }
    requires map_len { length m.old.map.now ≡ g.l }
    requires places_len { length m.old.places.now ≡ pieces_for g.l }
    requires numbers_len { length m.old.numbers.now ≡ pieces_for g.l }
    requires used_len { length m.old.used.now ≡ used_bytes g.n }
    ensures lent { SameLent m.new m.old }
    ensures value { after result (held m.new) ≡ recovered g drive allowance (held m.old) (scan_finding g (image_view g (sector_at m.old.image.now)) (sector_at m.old.image.now 0)) }
{
    let mut above = [0u8; BYTES];
    match scan_held::<N>(m, g, &mut above) {
        Err(loss) => {
            lent::zero_held(m);
            Outcome {
                answer: Answer::Lost(loss),
                state: State::lost(g, drive),
            }
        }
        Ok(tail) => { resume::after_scan(m, g, drive, tail.sector, tail.number, &above, allowance) }
    }
}
