// The refusals of a commit.
#![tactic(auto)]

ghost use Rattle.std.specs.Prelude.{◌≡◌, true, not, [], ◌+◌, ◌≤◌, length, ltb};
ghost use Rattle.geometry.specs.Geometry.{pieces_for, commit_blocks};
ghost use Rattle.answer.specs.Answer.{standing};
ghost use Rattle.state.specs.State.{is_running};
ghost use Rattle.lending.specs.Lending.{seen};
ghost use Rattle.volume.specs.Tables.{bit_at, memory, free_sectors};
ghost use Rattle.volume.specs.Refusals.{first_of, judged};
ghost use Rattle.volume.specs.Format.{tables_fit};
ghost use Rattle.volume.specs.Rules.{base};
ghost use Rattle.volume.specs.Calls.{state_fits, tables_agree, commit_checks};
ghost use Rattle.verdict.specs.Known.{KnownAgreed};

use answer::Refusal;
use geometry::Geometry;
use lending::Tables;
use state::{Phase, State};

// A tail with a greater number leaves too few numbers for another commit.
const GREATEST: u32 = 4_294_967_039;

// Refusal 5: the tables are sound and agree with the image. They are not looked at where that is known.
fn tables_stand(s: State, image: &[u8], t: &Tables<'_>, free: u32, known: bool) -> bool
    requires used_value { state_fits s (seen image.now t.now) ≡ true }
    requires geometry_value { tables_fit (seen image.now t.now) s.geometry ≡ true }
    requires free_value { free ≡ free_sectors s.geometry.n (bit_at t.now.used.now) }
    requires known_agreed { KnownAgreed known s (seen image.now t.now) }
    ensures { result ≡ tables_agree s (seen image.now t.now) }
{
    known || live_sectors::tables_agree(s, image, t, free)
}

// Of a running volume: the refusals that follow from how its tables stand. A drop needs no sectors of its own: P are always free.
fn running_verdict(
    s: State,
    image: &[u8],
    t: &Tables<'_>,
    count: usize,
    known: bool,
) -> Result<(), Refusal>
    requires phase_value { is_running s.phase ≡ true }
    requires used_value { state_fits s (seen image.now t.now) ≡ true }
    requires geometry_value { tables_fit (seen image.now t.now) s.geometry ≡ true }
    requires count_le_commit_blocks { count ≤ commit_blocks }
    requires known_agreed { KnownAgreed known s (seen image.now t.now) }
    ensures { result ≡ first_of standing (commit_checks base s (seen image.now t.now) 0 [] true (not (ltb (free_sectors s.geometry.n (bit_at t.now.used.now)) (count + pieces_for s.geometry.l)))) }
{
    let g = s.geometry;
    let free = bits::count_free(t.used, g.n);
    if !tables_stand(s, image, t, free, known) {
        return Err(Refusal::Inconsistent);
    }
    let pieces = Geometry::pieces_for(g.l) as usize;
    if (free as usize) < count + pieces {
        return Err(Refusal::NoRoom);
    }
    if GREATEST < s.number {
        return Err(Refusal::NumbersUsedUp);
    }
    Ok(())
}

// The refusals that follow from how the volume stands.
fn standing_verdict(
    s: State,
    image: &[u8],
    t: &Tables<'_>,
    count: usize,
    known: bool,
) -> Result<(), Refusal>
    requires used_value { state_fits s (seen image.now t.now) ≡ true }
    requires geometry_value { tables_fit (seen image.now t.now) s.geometry ≡ true }
    requires count_le_commit_blocks { count ≤ commit_blocks }
    requires known_agreed { KnownAgreed known s (seen image.now t.now) }
    ensures { result ≡ first_of standing (commit_checks base s (seen image.now t.now) 0 [] true (not (ltb (free_sectors s.geometry.n (bit_at t.now.used.now)) (count + pieces_for s.geometry.l)))) }
{
    let phase = s.phase;
    match phase {
        Phase::Running => running_verdict(s, image, t, count, known),
        Phase::Parked => Err(Refusal::WrongPhase),
        Phase::Cut => Err(Refusal::WrongPhase),
    }
}

// The refusals of a commit, in their order. Whether the tables are known to agree with the image is said by the caller.
pub fn commit_verdict(
    s: State,
    image: &[u8],
    t: &Tables<'_>,
    head: u32,
    blocks: &[u32],
    fit: bool,
    count: usize,
    known: bool,
) -> Result<(), Refusal>
    requires count_in_bounds { count ≤ length blocks.now }
    requires known_agreed { KnownAgreed known s (seen image.now t.now) }
    ensures { result ≡ judged (commit_checks base s (seen image.now t.now) head blocks.now fit (not (ltb (free_sectors s.geometry.n (bit_at t.now.used.now)) (count + pieces_for s.geometry.l)))) }
{
    checks::state_verdict(s, t.lengths(image.len()), fit)?;
    let g = s.geometry;
    if !block_numbers::blocks_fit(g, head, blocks) {
        return Err(Refusal::BlockNumbers);
    }
    standing_verdict(s, image, t, count, known)
}
