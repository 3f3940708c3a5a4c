// The read call: the block that an entry names, restored where it was stored flipped.
#![tactic(auto)]

ghost use Rattle.std.specs.Prelude.{◌≡◌, cond, ◌≤◌, ◌<◌, length, Ok, Err};
ghost use Rattle.answer.specs.declared.Refusal.TheVariants.{Inconsistent};
ghost use Rattle.layout.specs.Bounded.{at};
ghost use Rattle.layout.specs.Entry.{sector_of, restored};
ghost use Rattle.volume.specs.Tables.{sector_at, memory};
ghost use Rattle.volume.specs.Refusals.{judged};
ghost use Rattle.volume.specs.Calls.{entry_readable, read_checks, read_of};
ghost use Rattle.lending.specs.Lending.{seen};
ghost use Rattle.checks.specs.Left.{read_left};

use answer::{Answer, Refusal};
use geometry::Geometry;
use lending::Tables;
use state::{Outcome, Phase, State};

// Refusal 5 of a read: its own entry is empty, or names a sector from 1 to n - 1.
#[tactic(auto, unfolding(volume::specs::Calls::entry_readable))]
fn entry_readable(n: u32, entry: u32) -> bool
    requires { 1 ≤ n }
    ensures { result ≡ entry_readable n entry }
{
    let sector = blocks::sector_of(entry);
    entry == 0 || 1 <= sector && sector <= n - 1
}

// The same as a verdict, of a volume that can be read.
fn entry_verdict(n: u32, entry: u32) -> Result<(), Refusal>
    requires { 1 ≤ n }
    ensures { result ≡ cond (entry_readable n entry) (Ok tt) (Err Inconsistent) }
{
    if !entry_readable(n, entry) {
        return Err(Refusal::Inconsistent);
    }
    Ok(())
}

// The refusals of a read, in their order.
fn read_verdict(
    s: State,
    image: &[u8],
    t: &Tables<'_>,
    block: u32,
    out: usize,
) -> Result<(), Refusal>
    ensures { result ≡ judged (read_checks s (seen image.now t.now) block out) }
{
    checks::state_verdict(s, t.lengths(image.len()), out == Geometry::SECTOR)?;
    let g = s.geometry;
    if g.l <= block {
        return Err(Refusal::BlockNumbers);
    }
    let entry = t.map[block as usize];
    let phase = s.phase;
    match phase {
        Phase::Running | Phase::Parked => entry_verdict(g.n, entry),
        Phase::Cut => Err(Refusal::WrongPhase),
    }
}

// The block's bytes, where no refusal applies.
fn fill(s: State, image: &[u8], t: &Tables<'_>, block: u32, out: &mut [u8])
    requires { Ok tt ≡ judged (read_checks s (seen image.now t.now) block (length out.old)) }
    ensures { out.new ≡ restored (at t.now.map.now block) (sector_at image.now (sector_of (at t.now.map.now block))) }
{
    let entry = t.map[block as usize];
    let k = blocks::sector_of(entry) as usize;
    blocks::restore_block(out, entry, images::sector(image, k));
}

// Fills out with a block: an accepted read changes only those 512 bytes. Inlined, so that a caller that reads one block after another
// makes the checks of the state and the lengths once.
#[inline(always)]
pub fn read(s: State, image: &[u8], t: &Tables<'_>, block: u32, out: &mut [u8]) -> Outcome
    ensures { read_left result (seen image.now t.now) out.new ≡ read_of s (seen image.now t.now) block out.old }
{
    let verdict = read_verdict(s, image, t, block, out.len());
    match verdict {
        Err(refusal) => Outcome {
            answer: Answer::Refused(refusal),
            state: s,
        },
        Ok(()) => {
            fill(s, image, t, block, out);
            Outcome {
                answer: Answer::accepted(0),
                state: s,
            }
        }
    }
}
