// The scan: the log as all signed sectors tell it.
#![tactic(auto)]

ghost use Rattle.std.specs.Prelude.{◌≡◌, true, not, ◌*◌, ◌≤◌, length, replicate};
ghost use Rattle.geometry.specs.Geometry.{sector_bytes, pieces_for, used_bytes, geometry_fits, most_sectors};
ghost use Rattle.volume.specs.Tables.{sector_at, bit_at};
ghost use Rattle.volume.specs.Recover.{newest_closing, closed_up_to, scanned_log, scan_damaged, scan_finding, image_view};
ghost use Rattle.signed.specs.Signed.{Listed};
ghost use Rattle.log_tables.specs.LogTables.{live_places, live_numbers, map_from};
ghost use Rattle.lending.specs.Lending.{tables_filled, SameTables};
ghost use Rattle.scan.specs.Scanned.{scan_found, ScanAbove, Sized};

use answer::Loss;
use geometry::Geometry;
use log_tables::{agrees, fill_map, live};
use signed::Signed;
use state::tail::Tail;

// The tables of the volume, to fill in from an image that is only looked at.
pub use lending::TablesMut;

// The sectors of a medium volume, and of the largest one, as lengths.
const MEDIUM: usize = Geometry::MEDIUM as usize;

const LARGE: usize = Geometry::MOST_SECTORS as usize;

// The live sectors of the pieces up to number c, and the map that they hold.
fn scan_live(
    image: &[u8],
    g: Geometry,
    sectors: &[u16],
    numbered: &[u32],
    pieces: &[u8],
    c: u32,
    t: &mut TablesMut<'_>,
)
    requires le_n { 1 ≤ g.n }
    requires image_len { length image.now ≡ sector_bytes * g.n }
    requires numbered_len { length numbered.now ≡ length sectors.now }
    requires pieces_len { length pieces.now ≡ length sectors.now }
    requires listed { Listed (image_view g (sector_at image.now)) g.n sectors.now numbered.now pieces.now }
    requires sized { Sized g t.old }
    ensures lent { SameTables t.new t.old }
    ensures sized { Sized g t.new }
    ensures value { (t.new.places.now ≡ live_places (image_view g (sector_at image.now)) c g.n (pieces_for g.l)) × (t.new.numbers.now ≡ live_numbers (image_view g (sector_at image.now)) c g.n (pieces_for g.l)) × (t.new.map.now ≡ map_from (sector_at image.now) t.new.places.now g.l) }
{
    t.places.fill(0);
    t.numbers.fill(0);
    live::find_live(sectors, numbered, pieces, c, t.places, t.numbers);
    let map = &mut *t.map;
    let places = &mut *t.places;
    fill_map::fill_map(image, places, map);
}

// Whether the log up to the newest closing number is whole: no two signed sectors with one number, no piece missing, and its tables
// sound. The tables then stand in what was lent.
fn scan_tables(
    image: &[u8],
    g: Geometry,
    read: Signed,
    sectors: &[u16],
    numbered: &[u32],
    pieces: &[u8],
    t: &mut TablesMut<'_>,
) -> bool
    requires g_value { geometry_fits g ≡ true }
    requires image_len { length image.now ≡ sector_bytes * g.n }
    requires tail_value { read.tail ≡ newest_closing g.n (image_view g (sector_at image.now)) }
    requires sectors_len_bound { length sectors.now ≤ most_sectors }
    requires numbered_len { length numbered.now ≡ length sectors.now }
    requires pieces_len { length pieces.now ≡ length sectors.now }
    requires listed { Listed (image_view g (sector_at image.now)) g.n sectors.now numbered.now pieces.now }
    requires sized { Sized g t.old }
    ensures lent { SameTables t.new t.old }
    ensures sized { Sized g t.new }
    ensures value { (result ≡ not (scan_damaged g (image_view g (sector_at image.now)) read.number (scanned_log g (image_view g (sector_at image.now)) read.number))) × (result ≡ true → tables_filled t.new ≡ (scanned_log g (image_view g (sector_at image.now)) read.number).tables) }
{
    if !distinct::numbers_distinct(numbered) {
        return false;
    }
    scan_live(image, g, sectors, numbered, pieces, read.number, t);
    let map = &mut *t.map;
    let places = &mut *t.places;
    let numbers = &mut *t.numbers;
    let used = &mut *t.used;
    agrees::log_agrees(g, map, places, numbers, used, read.tail, read.number)
}

// The scan, given what was read of the signed sectors. That there is no closing sector is judged before what is damaged.
fn scan_listed(
    image: &[u8],
    g: Geometry,
    read: Signed,
    sectors: &[u16],
    numbered: &[u32],
    pieces: &[u8],
    t: &mut TablesMut<'_>,
    above: &mut [u8],
) -> Result<Tail, Loss>
    requires g_value { geometry_fits g ≡ true }
    requires image_len { length image.now ≡ sector_bytes * g.n }
    requires tail_value { read.tail ≡ newest_closing g.n (image_view g (sector_at image.now)) }
    requires number_value { read.number ≡ closed_up_to g.n (image_view g (sector_at image.now)) }
    requires sectors_len_bound { length sectors.now ≤ most_sectors }
    requires numbered_len { length numbered.now ≡ length sectors.now }
    requires pieces_len { length pieces.now ≡ length sectors.now }
    requires listed { Listed (image_view g (sector_at image.now)) g.n sectors.now numbered.now pieces.now }
    requires sized { Sized g t.old }
    requires n_bound { g.n ≤ 8 * length above.old }
    requires above_value { above.old ≡ replicate (length above.old) 0 }
    ensures lent { SameTables t.new t.old }
    ensures sized { Sized g t.new }
    ensures value { (scan_found result g.n (image_view g (sector_at image.now)) (sector_at image.now 0) (tables_filled t.new) ≡ scan_finding g (image_view g (sector_at image.now)) (sector_at image.now 0)) × ScanAbove result (image_view g (sector_at image.now)) (bit_at above.new) }
{
    if read.number == 0 {
        return Err(Loss::NoLog);
    }
    if !scan_tables(image, g, read, sectors, numbered, pieces, t) {
        return Err(Loss::DamagedLog);
    }
    signed::mark_above(sectors, numbered, read.number, above);
    Ok(Tail {
        sector: read.tail,
        number: read.number,
    })
}

// The scan, by arrays that have room for all sectors.
fn scan_in(
    image: &[u8],
    g: Geometry,
    sectors: &mut [u16],
    numbered: &mut [u32],
    pieces: &mut [u8],
    t: &mut TablesMut<'_>,
    above: &mut [u8],
) -> Result<Tail, Loss>
    requires g_value { geometry_fits g ≡ true }
    requires image_len { length image.now ≡ sector_bytes * g.n }
    requires n_in_bounds { g.n ≤ length sectors.old }
    requires sectors_len_bound { length sectors.old ≤ most_sectors }
    requires numbered_len { length numbered.old ≡ length sectors.old }
    requires pieces_len { length pieces.old ≡ length sectors.old }
    requires sized { Sized g t.old }
    requires n_bound { g.n ≤ 8 * length above.old }
    requires above_value { above.old ≡ replicate (length above.old) 0 }
    ensures lent { SameTables t.new t.old }
    ensures sized { Sized g t.new }
    ensures value { (scan_found result g.n (image_view g (sector_at image.now)) (sector_at image.now 0) (tables_filled t.new) ≡ scan_finding g (image_view g (sector_at image.now)) (sector_at image.now 0)) × ScanAbove result (image_view g (sector_at image.now)) (bit_at above.new) }
{
    let read = signed::read_signed(image, g, sectors, numbered, pieces);
    let from = read.from;
    scan_listed(
        image,
        g,
        read,
        &sectors[from..],
        &numbered[from..],
        &pieces[from..],
        t,
        above,
    )
}

// The scan of a volume of at most N sectors. The arrays are cleared first, so a small volume has small ones, and each size a frame of
// its own.
#[inline(never)]
pub fn scan_within<const N: usize>(
    image: &[u8],
    g: Geometry,
    t: &mut TablesMut<'_>,
    above: &mut [u8],
) -> Result<Tail, Loss>
    requires n_le_size { g.n ≤ N }
    requires size_le_most_sectors { N ≤ most_sectors }
    requires g_value { geometry_fits g ≡ true }
    requires image_len { length image.now ≡ sector_bytes * g.n }
    requires sized { Sized g t.old }
    requires n_bound { g.n ≤ 8 * length above.old }
    requires above_value { above.old ≡ replicate (length above.old) 0 }
    ensures lent { SameTables t.new t.old }
    ensures sized { Sized g t.new }
    ensures value { (scan_found result g.n (image_view g (sector_at image.now)) (sector_at image.now 0) (tables_filled t.new) ≡ scan_finding g (image_view g (sector_at image.now)) (sector_at image.now 0)) × ScanAbove result (image_view g (sector_at image.now)) (bit_at above.new) }
{
    let mut sectors = [0u16; N];
    let mut numbered = [0u32; N];
    let mut pieces = [0u8; N];
    scan_in(image, g, &mut sectors, &mut numbered, &mut pieces, t, above)
}

// Finds the log by a scan of all sectors. The tables are then in what was lent, and in `above` the uncommitted sectors.
pub fn scan(
    image: &[u8],
    g: Geometry,
    t: &mut TablesMut<'_>,
    above: &mut [u8],
) -> Result<Tail, Loss>
    requires g_value { geometry_fits g ≡ true }
    requires image_len { length image.now ≡ sector_bytes * g.n }
    requires sized { Sized g t.old }
    requires n_bound { g.n ≤ 8 * length above.old }
    requires above_value { above.old ≡ replicate (length above.old) 0 }
    ensures lent { SameTables t.new t.old }
    ensures sized { Sized g t.new }
    ensures value { (scan_found result g.n (image_view g (sector_at image.now)) (sector_at image.now 0) (tables_filled t.new) ≡ scan_finding g (image_view g (sector_at image.now)) (sector_at image.now 0)) × ScanAbove result (image_view g (sector_at image.now)) (bit_at above.new) }
{
    if g.n <= Geometry::MEDIUM {
        return scan_within::<MEDIUM>(image, g, t, above);
    }
    scan_within::<LARGE>(image, g, t, above)
}
