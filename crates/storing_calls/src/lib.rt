// The calls that may store, by name: programs choose one here, and pass on what it is lent.
#![tactic(auto)]

ghost use Rattle.std.specs.Prelude.{◌≡◌};
ghost use Rattle.lending.specs.Lending.{lengths_held, SameLent};

use geometry::Settings;
use lending::{Memory, Tables};
use state::{Outcome, State};

#[derive(Clone, Copy)]
pub enum Storing {
    Format,
    Write,
    Drop,
    Park,
    Recover,
}

// A format or a recover is given the settings, a write or a drop the head.
pub fn perform(
    call: Storing,
    s: State,
    m: &mut Memory<'_>,
    settings: Settings,
    head: u32,
    blocks: &[u32],
    bytes: &[u8],
    stores: u32,
) -> Outcome
    ensures lent { SameLent m.new m.old }
    ensures lengths { lengths_held m.new ≡ lengths_held m.old }
{
    match call {
        Storing::Format => format::format(s, m, settings, stores),
        Storing::Write => write::write(s, m, head, blocks, bytes, stores),
        Storing::Drop => write::drop(s, m, head, blocks, stores),
        Storing::Park => {
            let image = &mut *m.image;
            let map = &mut *m.map;
            let places = &mut *m.places;
            let numbers = &mut *m.numbers;
            let used = &mut *m.used;
            let tables = Tables {
                map,
                places,
                numbers,
                used,
            };
            park::park(s, image, &tables, stores)
        }
        Storing::Recover => recover::recover(s, m, settings, stores),
    }
}
