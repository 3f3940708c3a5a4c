// The checks of sizes, settings and lengths that the calls share: refusals 1, 11 and 2.
#![tactic(auto)]

ghost use Rattle.std.specs.Prelude.{◌≡◌, ◌&&◌, ◌*◌, ◌/◌, ◌%◌, eqb};
ghost use Rattle.geometry.specs.Geometry.{sector_bytes, pieces_for, used_bytes, geometry_of, geometry_fits};
ghost use Rattle.layout.specs.Bounded.{is_zero};
ghost use Rattle.answer.specs.Answer.{lengths};
ghost use Rattle.volume.specs.Refusals.{first_of, judged};
ghost use Rattle.volume.specs.Format.{size_checks};
ghost use Rattle.volume.specs.Calls.{state_checks};
ghost use Rattle.checks.specs.Left.{measured};

use answer::Refusal;
use geometry::{Geometry, Settings};
use lending::Lengths;
use state::State;

// Refusal 1 of a call on a state: N and L are in range, and the image has N sectors.
fn state_fits(s: State, image: usize) -> bool
    ensures { result ≡ (eqb image (sector_bytes * s.geometry.n) && geometry_fits s.geometry) }
{
    let g = s.geometry;
    image == Geometry::SECTOR * (g.n as usize) && g.fits()
}

// Refusal 2: the tables have their lengths.
fn tables_fit(g: Geometry, lent: Lengths) -> bool
    ensures { result ≡ (eqb lent.map g.l && eqb lent.places (pieces_for g.l) && eqb lent.numbers (pieces_for g.l) && eqb lent.used (used_bytes g.n)) }
{
    let pieces = Geometry::pieces_for(g.l) as usize;
    lent.map == g.l as usize
        && lent.places == pieces
        && lent.numbers == pieces
        && lent.used == g.used_bytes() as usize
}

// The refusals that every call on a state begins with, by the lengths of what is lent; own says so of the call's own buffer.
pub fn state_verdict(s: State, lent: Lengths, own: bool) -> Result<(), Refusal>
    ensures { result ≡ first_of lengths (state_checks s (measured lent) own) }
{
    if !state_fits(s, lent.image) {
        return Err(Refusal::Size);
    }
    let g = s.geometry;
    let drive = s.drive;
    if !drive.fits(g.n) {
        return Err(Refusal::WrongSettings);
    }
    if !tables_fit(g, lent) {
        return Err(Refusal::BufferLength);
    }
    if !own {
        return Err(Refusal::BufferLength);
    }
    Ok(())
}

// The image is whole sectors, and their number and what is given are in range.
fn image_fits(image: usize, settings: Settings) -> bool
    ensures { result ≡ (is_zero (image % sector_bytes) && geometry_fits (geometry_of (image / sector_bytes) settings)) }
{
    let sectors = image / Geometry::SECTOR;
    image % Geometry::SECTOR == 0
        && sectors <= Geometry::MOST_SECTORS as usize
        && settings.volume(sectors as u32).fits()
}

// The refusals of format and recover, by the lengths of what is lent.
pub fn size_verdict(settings: Settings, lent: Lengths) -> Result<(), Refusal>
    ensures { result ≡ judged (size_checks (measured lent) settings) }
{
    if !image_fits(lent.image, settings) {
        return Err(Refusal::Size);
    }
    let g = settings.volume((lent.image / Geometry::SECTOR) as u32);
    let drive = settings.drive;
    if !drive.fits(g.n) {
        return Err(Refusal::WrongSettings);
    }
    if !tables_fit(g, lent) {
        return Err(Refusal::BufferLength);
    }
    Ok(())
}
