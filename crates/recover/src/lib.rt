// The recover call: the log is found again by a walk from the tail that was parked, or by a scan of all sectors.
#![tactic(auto)]

ghost use Rattle.std.specs.Prelude.{◌≡◌, true, ◌*◌, ◌/◌, ◌≤◌, Some, length, Ok};
ghost use Rattle.geometry.specs.Geometry.{sector_bytes, pieces_for, used_bytes, geometry_of, geometry_fits};
ghost use Rattle.layout.specs.ParkRecord.{parked_in};
ghost use Rattle.lending.specs.Lending.{held, lengths_held, SameLent};
ghost use Rattle.volume.specs.Tables.{sector_at};
ghost use Rattle.volume.specs.Refusals.{judged};
ghost use Rattle.volume.specs.Store.{after};
ghost use Rattle.volume.specs.Format.{size_checks};
ghost use Rattle.volume.specs.Recover.{finding_of, scan_finding, recovered, image_view, recover_of, walked_log, walk_complete};
ghost use Rattle.signed.specs.Signed.{signed_at};
ghost use Rattle.walk.specs.Walking.{Left};
ghost use Rattle.walk_start.specs.Starting.{start_of};

use answer::Answer;
use geometry::{Drive, Geometry, Settings};
use lending::{Memory, TablesMut};
use state::tail::Tail;
use state::{Outcome, State};

// The lengths of the arrays that a scan has: the sectors of a small, a medium and a large volume, at most, and the bytes of their bits.
const SMALL: usize = Geometry::SMALL as usize;

const SMALL_BYTES: usize = Geometry::SMALL_USED_BYTES;

const MEDIUM: usize = Geometry::MEDIUM as usize;

const MEDIUM_BYTES: usize = MEDIUM / 8;

const LARGE: usize = Geometry::MOST_SECTORS as usize;

const LARGE_BYTES: usize = Geometry::MOST_USED_BYTES;

// By a scan whose arrays are of the volume's size: those of a large volume take long to clear.
fn by_scan(m: &mut Memory<'_>, g: Geometry, drive: Drive, allowance: u32) -> Outcome
    requires g_value { geometry_fits g ≡ true }
    requires image_len { length m.old.image.now ≡ sector_bytes * g.n }
    requires map_len { length m.old.map.now ≡ g.l }
    requires places_len { length m.old.places.now ≡ pieces_for g.l }
    requires numbers_len { length m.old.numbers.now ≡ pieces_for g.l }
    requires used_len { length m.old.used.now ≡ used_bytes g.n }
    ensures lent { SameLent m.new m.old }
    ensures value { after result (held m.new) ≡ recovered g drive allowance (held m.old) (scan_finding g (image_view g (sector_at m.old.image.now)) (sector_at m.old.image.now 0)) }
{
    if g.n <= Geometry::SMALL {
        return recover_by_scan::by_scan::<SMALL, SMALL_BYTES>(m, g, drive, allowance);
    }
    if g.n <= Geometry::MEDIUM {
        return recover_by_scan::by_scan::<MEDIUM, MEDIUM_BYTES>(m, g, drive, allowance);
    }
    recover_by_scan::by_scan::<LARGE, LARGE_BYTES>(m, g, drive, allowance)
}

// The walk into the tables that are lent. The image is only looked at.
fn walk_held(m: &mut Memory<'_>, g: Geometry, tail: Tail) -> bool
    requires g_value { geometry_fits g ≡ true }
    requires image_len { length m.old.image.now ≡ sector_bytes * g.n }
    requires le_tail { 1 ≤ tail.sector }
    requires tail_value { signed_at g (sector_at m.old.image.now) tail.sector ≡ true }
    requires map_len { length m.old.map.now ≡ g.l }
    requires places_len { length m.old.places.now ≡ pieces_for g.l }
    requires numbers_len { length m.old.numbers.now ≡ pieces_for g.l }
    requires used_len { length m.old.used.now ≡ used_bytes g.n }
    ensures lent { SameLent m.new m.old }
    ensures image { m.new.image.now ≡ m.old.image.now }
    ensures lengths { lengths_held m.new ≡ lengths_held m.old }
    ensures value { (result ≡ walk_complete g (walked_log g.l (image_view g (sector_at m.old.image.now)) (record { number = tail.number; tail = tail.sector }))) × (result ≡ true → Left g (sector_at m.old.image.now) tail.sector m.new.map.now m.new.places.now m.new.numbers.now m.new.used.now) }
{
    let image = &mut *m.image;
    let mut t = TablesMut {
        map: &mut *m.map,
        places: &mut *m.places,
        numbers: &mut *m.numbers,
        used: &mut *m.used,
    };
    walk::walk_tables(image, g, tail.sector, tail.number, &mut t)
}

// By a walk from the tail that was parked, or by a scan where the walk does not answer.
fn by_walk(m: &mut Memory<'_>, g: Geometry, drive: Drive, tail: Tail, allowance: u32) -> Outcome
    requires g_value { geometry_fits g ≡ true }
    requires image_len { length m.old.image.now ≡ sector_bytes * g.n }
    requires number_value { Some tail ≡ start_of g.n (image_view g (sector_at m.old.image.now)) (parked_in (sector_at m.old.image.now 0)) }
    requires map_len { length m.old.map.now ≡ g.l }
    requires places_len { length m.old.places.now ≡ pieces_for g.l }
    requires numbers_len { length m.old.numbers.now ≡ pieces_for g.l }
    requires used_len { length m.old.used.now ≡ used_bytes g.n }
    ensures lent { SameLent m.new m.old }
    ensures value { after result (held m.new) ≡ recovered g drive allowance (held m.old) (finding_of g (image_view g (sector_at m.old.image.now)) (sector_at m.old.image.now 0)) }
{
    if !walk_held(m, g, tail) {
        return by_scan(m, g, drive, allowance);
    }
    let image = &mut *m.image;
    let places = &mut *m.places;
    let read = 2 + walk::count_branches(image, places);
    resume::after_walk(m, g, drive, tail.sector, tail.number, read, allowance)
}

// A recovery that no refusal stops.
fn find(m: &mut Memory<'_>, settings: Settings, allowance: u32) -> Outcome
    requires { Ok tt ≡ judged (size_checks (held m.old) settings) }
    ensures lent { SameLent m.new m.old }
    ensures value { after result (held m.new) ≡ recovered (geometry_of (length m.old.image.now / sector_bytes) settings) settings.drive allowance (held m.old) (finding_of (geometry_of (length m.old.image.now / sector_bytes) settings) (image_view (geometry_of (length m.old.image.now / sector_bytes) settings) (sector_at m.old.image.now)) (sector_at m.old.image.now 0)) }
{
    let image = &mut *m.image;
    let g = settings.volume((image.len() / Geometry::SECTOR) as u32);
    let drive = settings.drive;
    match walk_start::parked_at(image, g) {
        None => by_scan(m, g, drive, allowance),
        Some(tail) => by_walk(m, g, drive, tail, allowance),
    }
}

// Finds the log in the image. It looks at nothing in the state or the tables.
pub fn recover(s: State, m: &mut Memory<'_>, settings: Settings, allowance: u32) -> Outcome
    ensures lent { SameLent m.new m.old }
    ensures value { after result (held m.new) ≡ recover_of s (held m.old) settings allowance }
{
    let verdict = checks::size_verdict(settings, m.lengths());
    match verdict {
        Err(refusal) => Outcome {
            answer: Answer::Refused(refusal),
            state: s,
        },
        Ok(()) => find(m, settings, allowance),
    }
}
