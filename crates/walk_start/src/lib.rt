// Where a walk starts: the park record, and the tail that it names.
#![tactic(auto)]

ghost use Rattle.std.specs.Prelude.{◌≡◌, ◌*◌, ◌≤◌, ◌<◌, length};
ghost use Rattle.geometry.specs.Geometry.{sector_bytes};
ghost use Rattle.layout.specs.ParkRecord.{parked_in};
ghost use Rattle.volume.specs.Tables.{sector_at};
ghost use Rattle.volume.specs.Recover.{image_view, walk_starts};
ghost use Rattle.walk_start.specs.Starting.{start_of};

use geometry::Geometry;
use state::tail::Tail;

// Whether sector `tail`, one from 1 to n - 1, is signed, closing, and has the number.
fn starts_at(image: &[u8], g: Geometry, tail: u32, number: u32) -> bool
    requires image_len { length image.now ≡ sector_bytes * g.n }
    requires le_n { 1 ≤ g.n }
    ensures { result ≡ walk_starts g.n (record { number = number; tail = tail }) (image_view g (sector_at image.now) tail) }
{
    if tail < 1 {
        return false;
    }
    if g.n - 1 < tail {
        return false;
    }
    let s = images::sector(image, tail as usize);
    if !map_sector::is_valid(s, g) {
        return false;
    }
    if !map_sector::is_closing(s) {
        return false;
    }
    map_sector::number_of(s) == number
}

// Where the park record in sector 0 says that a walk starts.
pub fn parked_at(image: &[u8], g: Geometry) -> Option<Tail>
    requires image_len { length image.now ≡ sector_bytes * g.n }
    requires le_n { 1 ≤ g.n }
    ensures { result ≡ start_of g.n (image_view g (sector_at image.now)) (parked_in (sector_at image.now 0)) }
{
    let s = images::sector(image, 0);
    if !park_record::is_park(s) {
        return None;
    }
    let sector = park_record::parked_tail(s);
    let number = park_record::parked_number(s);
    if !starts_at(image, g, sector, number) {
        return None;
    }
    Some(Tail { sector, number })
}
