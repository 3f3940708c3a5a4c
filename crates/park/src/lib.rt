// The park call: the tail and its number go into sector 0, so that recovery can walk from there.
#![tactic(auto)]

ghost use Rattle.std.specs.Prelude.{◌≡◌, true, cond, [], ◌∷◌, ◌≤◌, length, take, Ok, Err};
ghost use Rattle.geometry.specs.Geometry.{sector_bytes};
ghost use Rattle.answer.specs.declared.Refusal.TheVariants.{Inconsistent};
ghost use Rattle.lending.specs.Lending.{seen};
ghost use Rattle.volume.specs.Tables.{memory, sector_at};
ghost use Rattle.volume.specs.Refusals.{judged};
ghost use Rattle.volume.specs.Store.{applied, after};
ghost use Rattle.volume.specs.Format.{tables_fit};
ghost use Rattle.volume.specs.Calls.{state_fits, tables_agree, park_checks, park_of};
ghost use Rattle.power.specs.Power.{powered};
ghost use Rattle.park.specs.Park.{record_store};

use answer::{Answer, Refusal};
use lending::Tables;
use state::{Outcome, Phase, State};

// Of a running volume: its tables agree with each other and with the live map sectors.
fn tables_verdict(s: State, image: &[u8], t: &Tables<'_>) -> Result<(), Refusal>
    requires used_value { state_fits s (seen image.now t.now) ≡ true }
    requires geometry_value { tables_fit (seen image.now t.now) s.geometry ≡ true }
    ensures { result ≡ cond (tables_agree s (seen image.now t.now)) (Ok tt) (Err Inconsistent) }
{
    let g = s.geometry;
    let free = bits::count_free(t.used, g.n);
    if !live_sectors::tables_agree(s, image, t, free) {
        return Err(Refusal::Inconsistent);
    }
    Ok(())
}

// The refusals of a park, in their order.
fn park_verdict(s: State, image: &[u8], t: &Tables<'_>) -> Result<(), Refusal>
    ensures { result ≡ judged (park_checks s (seen image.now t.now)) }
{
    checks::state_verdict(s, t.lengths(image.len()), true)?;
    let phase = s.phase;
    match phase {
        Phase::Running => tables_verdict(s, image, t),
        Phase::Parked => Err(Refusal::WrongPhase),
        Phase::Cut => Err(Refusal::WrongPhase),
    }
}

// Stores the park record, where a store is allowed.
fn store_record(image: &mut [u8], number: u32, tail: u32, allowance: u32) -> Option<u32>
    requires { sector_bytes ≤ length image.old }
    ensures { (result ≡ powered 1 allowance) × (sector_at image.new ≡ applied (take allowance (record_store number tail ∷ [])) (sector_at image.old)) }
{
    let left = allowance.checked_sub(1)?;
    images::store_park(image, number, tail);
    Some(left)
}

// Parks the volume, if the store is made.
pub fn park(s: State, image: &mut [u8], t: &Tables<'_>, allowance: u32) -> Outcome
    ensures { after result (seen image.new t.now) ≡ park_of s (seen image.old t.now) allowance }
{
    let verdict = park_verdict(s, image, t);
    match verdict {
        Err(refusal) => Outcome {
            answer: Answer::Refused(refusal),
            state: s,
        },
        Ok(()) => {
            let power = store_record(image, s.number, s.tail, allowance);
            match power {
                None => Outcome {
                    answer: Answer::power_failed(allowance),
                    state: s.cut(),
                },
                Some(left) => {
                    let stores = allowance - left;
                    Outcome {
                        answer: Answer::accepted(stores),
                        state: s.parked(),
                    }
                }
            }
        }
    }
}
