// The sectors of an image that a scan of it takes as live. Nothing is stored, and no table of the volume is asked.
#![tactic(auto)]

ghost use Rattle.std.specs.Prelude.{◌≡◌, true, not, ◌&&◌, ◌*◌, length, eqb};
ghost use Rattle.geometry.specs.Geometry.{sector_bytes, used_bytes, geometry_fits};
ghost use Rattle.volume.specs.Tables.{bit_at};
ghost use Rattle.live_marks.specs.Live.{marked, sizes_fit, scan_marks, live_marks};

use geometry::Geometry;
use scan::TablesMut;

// Whether so many bytes are an image of such a volume, and so many more its used map.
fn sizes_fit(g: Geometry, bytes: usize, marks: usize) -> bool
    ensures { result ≡ sizes_fit g bytes marks }
{
    g.fits() && bytes == Geometry::SECTOR * g.n as usize && marks == g.used_bytes() as usize
}

// The used map of the log that a scan finds. Its other tables are not kept.
fn mark_scanned(image: &[u8], g: Geometry, used: &mut [u8]) -> bool
    requires g_value { geometry_fits g ≡ true }
    requires image_len { length image.now ≡ sector_bytes * g.n }
    requires used_len { length used.old ≡ used_bytes g.n }
    ensures { marked result (bit_at used.new) ≡ scan_marks g image.now }
{
    let l = g.l as usize;
    let p = Geometry::pieces_for(g.l) as usize;
    let mut map = [0u32; Geometry::MOST_BLOCKS as usize];
    let mut places = [0u32; Geometry::MOST_PIECES];
    let mut numbers = [0u32; Geometry::MOST_PIECES];
    let mut above = [0u8; Geometry::MOST_USED_BYTES];
    let mut t = TablesMut {
        map: &mut map[..l],
        places: &mut places[..p],
        numbers: &mut numbers[..p],
        used,
    };
    scan::scan(image, g, &mut t, &mut above).is_ok()
}

// Marks the live sectors, and sector 0, where a scan finds a log. Where it finds none, or the sizes are not those of a volume, the
// answer is false.
pub fn mark_live(image: &[u8], g: Geometry, used: &mut [u8]) -> bool
    ensures { marked result (bit_at used.new) ≡ live_marks g image.now (length used.old) }
{
    if !sizes_fit(g, image.len(), used.len()) {
        return false;
    }
    mark_scanned(image, g, used)
}

// Whether sector k is live by these marks. Sector 0 never is.
pub fn is_live(used: &[u8], k: usize) -> bool
    ensures { result ≡ (not (eqb k 0) && bit_at used.now k) }
{
    k != 0 && k / 8 < used.len() && bits::is_set(used, k)
}
