// The format call: zeros in every sector, then a fresh map.
#![tactic(auto)]

ghost use Rattle.std.specs.Prelude.{◌≡◌, ◌*◌, ◌/◌, ◌≤◌, ◌<◌, length, take, Ok};
ghost use Rattle.geometry.specs.Geometry.{sector_bytes, pieces_for, geometry_of, most_pieces};
ghost use Rattle.lending.specs.Lending.{held, SameLent};
ghost use Rattle.volume.specs.Tables.{sector_at};
ghost use Rattle.volume.specs.Refusals.{judged};
ghost use Rattle.volume.specs.Store.{applied, after, performed};
ghost use Rattle.volume.specs.Format.{format_stores, format_action, size_checks, format_of};
ghost use Rattle.power.specs.Power.{powered};

use answer::Answer;
use geometry::{Geometry, Settings};
use lending::Memory;
use state::{Outcome, State};

// All stores of a format, in order, under the allowance.
fn store_all(image: &mut [u8], g: Geometry, pieces: u32, allowance: u32) -> Option<u32>
    requires pieces_value { pieces ≡ pieces_for g.l }
    requires pieces_le_most_pieces { pieces ≤ most_pieces }
    requires pieces_lt_n { pieces < g.n }
    requires image_len { length image.old ≡ sector_bytes * g.n }
    ensures { (result ≡ powered (length (format_stores g)) allowance) × (sector_at image.new ≡ applied (take allowance (format_stores g)) (sector_at image.old)) }
{
    let left = fresh::blank_sectors(image, g.n, allowance)?;
    fresh::store_pieces(image, g.l, pieces, left)
}

// A format that no refusal stops.
fn make(m: &mut Memory<'_>, settings: Settings, allowance: u32) -> Outcome
    requires { Ok tt ≡ judged (size_checks (held m.old) settings) }
    ensures lent { SameLent m.new m.old }
    ensures value { after result (held m.new) ≡ performed allowance (format_action (geometry_of (length m.old.image.now / sector_bytes) settings) settings.drive) (held m.old) }
{
    let g = settings.volume((m.image.len() / Geometry::SECTOR) as u32);
    let pieces = Geometry::pieces_for(g.l);
    let power = store_all(m.image, g, pieces, allowance);
    match power {
        None => {
            lent::zero_held(m);
            Outcome {
                answer: Answer::power_failed(allowance),
                state: State::lost(g, settings.drive),
            }
        }
        Some(left) => {
            lent::fresh_held(m, g.l, pieces);
            let stores = allowance - left;
            Outcome {
                answer: Answer::accepted(stores),
                state: State::running(g, settings.drive, pieces, pieces),
            }
        }
    }
}

// Makes an empty volume in the image. It looks at nothing in the state.
pub fn format(s: State, m: &mut Memory<'_>, settings: Settings, allowance: u32) -> Outcome
    ensures lent { SameLent m.new m.old }
    ensures value { after result (held m.new) ≡ format_of s (held m.old) settings allowance }
{
    let verdict = checks::size_verdict(settings, m.lengths());
    match verdict {
        Err(refusal) => Outcome {
            answer: Answer::Refused(refusal),
            state: s,
        },
        Ok(()) => make(m, settings, allowance),
    }
}
