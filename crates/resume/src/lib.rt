// Once the log is found, by a walk or by a scan, what was not committed is cleared, and the volume runs.
#![tactic(auto)]

ghost use Rattle.std.specs.Prelude.{◌≡◌, ◌||◌, ◌++◌, ◌*◌, ◌≤◌, length, take};
ghost use Rattle.geometry.specs.Geometry.{sector_bytes};
ghost use Rattle.answer.specs.Answer.{stores_alone};
ghost use Rattle.answer.specs.declared.Answer.TheVariants.{Walked, Scanned, PowerFailed};
ghost use Rattle.state.specs.State.{lost_state};
ghost use Rattle.lending.specs.Lending.{held, lengths_held, tables_held, SameLent};
ghost use Rattle.volume.specs.Tables.{bit_at, sector_at, zero_tables};
ghost use Rattle.volume.specs.Store.{applied, stores_below, after, performed};
ghost use Rattle.volume.specs.Format.{blank_store};
ghost use Rattle.volume.specs.Recover.{park_sector_cleared, is_blank, recovery_action};
ghost use Rattle.power.specs.Power.{powered};

use answer::Answer;
use geometry::{Drive, Geometry};
use lending::Memory;
use state::{Outcome, State};

// The power failed: nothing is known of the tables any more.
fn give_up(m: &mut Memory<'_>, g: Geometry, drive: Drive, allowance: u32) -> Outcome
    ensures lent { SameLent m.new m.old }
    ensures image { m.new.image.now ≡ m.old.image.now }
    ensures lengths { lengths_held m.new ≡ lengths_held m.old }
    ensures value { (result.answer ≡ PowerFailed (stores_alone allowance)) × (result.state ≡ lost_state g drive) × (tables_held m.new ≡ zero_tables) }
{
    lent::zero_held(m);
    Outcome {
        answer: Answer::power_failed(allowance),
        state: State::lost(g, drive),
    }
}

// Clears sector 0, unless it is blank.
fn clear_first(image: &mut [u8], allowance: u32) -> Option<u32>
    requires { sector_bytes ≤ length image.old }
    ensures { (result ≡ powered (length (park_sector_cleared (is_blank (sector_at image.old 0)))) allowance) × (sector_at image.new ≡ applied (take allowance (park_sector_cleared (is_blank (sector_at image.old 0)))) (sector_at image.old)) }
{
    let blank = blocks::is_blank(images::sector(image, 0));
    clear::clear_park(image, blank, allowance)
}

// The log was found by a walk: sector 0 is cleared, and the volume runs.
pub fn after_walk(
    m: &mut Memory<'_>,
    g: Geometry,
    drive: Drive,
    tail: u32,
    number: u32,
    read: u32,
    allowance: u32,
) -> Outcome
    requires { sector_bytes ≤ length m.old.image.now }
    ensures lent { SameLent m.new m.old }
    ensures value { after result (held m.new) ≡ performed allowance (recovery_action g drive (record { tables = tables_held m.old; tail = tail; number = number }) (Walked read) (park_sector_cleared (is_blank (sector_at m.old.image.now 0)))) (held m.old) }
{
    match clear_first(m.image, allowance) {
        None => give_up(m, g, drive, allowance),
        Some(left) => {
            let stores = allowance - left;
            Outcome {
                answer: Answer::walked(read, stores),
                state: State::running(g, drive, tail, number),
            }
        }
    }
}

// The log was found by a scan: uncommitted sectors and sector 0 are cleared, and the volume runs.
pub fn after_scan(
    m: &mut Memory<'_>,
    g: Geometry,
    drive: Drive,
    tail: u32,
    number: u32,
    above: &[u8],
    allowance: u32,
) -> Outcome
    requires le_n { 1 ≤ g.n }
    requires image_len { length m.old.image.now ≡ sector_bytes * g.n }
    requires n_bound { g.n ≤ 8 * length above.now }
    ensures lent { SameLent m.new m.old }
    ensures value { after result (held m.new) ≡ performed allowance (recovery_action g drive (record { tables = tables_held m.old; tail = tail; number = number }) (Scanned g.n) (stores_below (bit_at above.now) blank_store g.n ++ park_sector_cleared (is_blank (sector_at m.old.image.now 0) || bit_at above.now 0))) (held m.old) }
{
    match clear::clear_all(m.image, g.n, above, allowance) {
        None => give_up(m, g, drive, allowance),
        Some(left) => {
            let stores = allowance - left;
            Outcome {
                answer: Answer::scanned(g.n, stores),
                state: State::running(g, drive, tail, number),
            }
        }
    }
}
