// The write and drop calls: each is one commit.
#![tactic(auto)]

ghost use Rattle.std.specs.Prelude.{◌≡◌, true, not, ◌+◌, ◌*◌, ◌≤◌, length, eqb, ltb};
ghost use Rattle.geometry.specs.Geometry.{sector_bytes, pieces_for};
ghost use Rattle.lending.specs.Lending.{held, SameLent};
ghost use Rattle.volume.specs.Tables.{bit_at, free_sectors};
ghost use Rattle.volume.specs.Refusals.{judged};
ghost use Rattle.volume.specs.Rules.{base};
ghost use Rattle.volume.specs.Store.{after};
ghost use Rattle.verdict.specs.Known.{KnownAgreed};
ghost use Rattle.volume.specs.Calls.{commit_checks, commit_of, drop_change, write_of, drop_of};

use answer::{Answer, Refusal};
use lending::Memory;
use state::{Outcome, State};

// The refusals of a commit of so many data sectors; fit says that it was lent the bytes that it needs, a drop none.
fn lent_verdict(
    s: State,
    m: &Memory<'_>,
    head: u32,
    blocks: &[u32],
    fit: bool,
    count: usize,
    known: bool,
) -> Result<(), Refusal>
    requires count_in_bounds { count ≤ length blocks.now }
    requires known_agreed { KnownAgreed known s (held m.now) }
    ensures { result ≡ judged (commit_checks base s (held m.now) head blocks.now fit (not (ltb (free_sectors s.geometry.n (bit_at m.now.used.now)) (count + pieces_for s.geometry.l)))) }
{
    verdict::commit_verdict(s, m.image(), &m.tables(), head, blocks, fit, count, known)
}

// The refusals of a write of so many bytes: as many as the named blocks have.
fn write_verdict(
    s: State,
    m: &Memory<'_>,
    head: u32,
    blocks: &[u32],
    bytes: usize,
    known: bool,
) -> Result<(), Refusal>
    requires { KnownAgreed known s (held m.now) }
    ensures { result ≡ judged (commit_checks base s (held m.now) head blocks.now (eqb bytes (sector_bytes * length blocks.now)) (not (ltb (free_sectors s.geometry.n (bit_at m.now.used.now)) (length blocks.now + pieces_for s.geometry.l)))) }
{
    let count = blocks.len();
    let fit = block_numbers::bytes_fit(bytes, count);
    lent_verdict(s, m, head, blocks, fit, count, known)
}

// A write as one commit. The tables are not looked at where they are known to agree with the image.
pub fn write_commit(
    s: State,
    m: &mut Memory<'_>,
    head: u32,
    blocks: &[u32],
    bytes: &[u8],
    allowance: u32,
    known: bool,
) -> Outcome
    requires { KnownAgreed known s (held m.old) }
    ensures lent { SameLent m.new m.old }
    ensures value { after result (held m.new) ≡ write_of s (held m.old) head blocks.now bytes.now allowance }
{
    let count = blocks.len();
    let verdict = write_verdict(s, m, head, blocks, bytes.len(), known);
    match verdict {
        Err(refusal) => Outcome {
            answer: Answer::Refused(refusal),
            state: s,
        },
        Ok(()) => commit::commit(s, m, head, blocks, bytes, count as u32, allowance),
    }
}

// Writes the named blocks: their bytes one after the other, in the order of the numbers.
pub fn write(
    s: State,
    m: &mut Memory<'_>,
    head: u32,
    blocks: &[u32],
    bytes: &[u8],
    allowance: u32,
) -> Outcome
    ensures lent { SameLent m.new m.old }
    ensures value { after result (held m.new) ≡ write_of s (held m.old) head blocks.now bytes.now allowance }
{
    write_commit(s, m, head, blocks, bytes, allowance, false)
}

// A drop as one commit; fit says that it was lent no bytes. The tables as in a write.
pub fn drop_commit(
    s: State,
    m: &mut Memory<'_>,
    head: u32,
    blocks: &[u32],
    fit: bool,
    allowance: u32,
    known: bool,
) -> Outcome
    requires { KnownAgreed known s (held m.old) }
    ensures lent { SameLent m.new m.old }
    ensures value { after result (held m.new) ≡ commit_of base s (held m.old) head (drop_change blocks.now) fit true allowance }
{
    let verdict = lent_verdict(s, m, head, blocks, fit, 0, known);
    match verdict {
        Err(refusal) => Outcome {
            answer: Answer::Refused(refusal),
            state: s,
        },
        Ok(()) => commit::commit(s, m, head, blocks, &[], 0, allowance),
    }
}

// Drops the named blocks: they read as zeros afterwards.
pub fn drop(s: State, m: &mut Memory<'_>, head: u32, blocks: &[u32], allowance: u32) -> Outcome
    ensures lent { SameLent m.new m.old }
    ensures value { after result (held m.new) ≡ drop_of s (held m.old) head blocks.now allowance }
{
    drop_commit(s, m, head, blocks, true, allowance, false)
}
