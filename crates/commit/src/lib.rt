// One commit: write and drop are it, with data sectors and without.
#![tactic(auto)]

ghost use Rattle.std.specs.Prelude.{◌≡◌, ◌⊎◌, true, not, [], ◌+◌, ◌-◌, ◌*◌, ◌≤◌, length, ltb, Ok};
ghost use Rattle.geometry.specs.Geometry.{sector_bytes, branch_room, pieces_for, used_bytes, geometry_fits};
ghost use Rattle.answer.specs.declared.Answer.TheVariants.{Accepted};
ghost use Rattle.state.specs.State.{committed_state};
ghost use Rattle.layout.specs.Bounded.{at, count_below};
ghost use Rattle.volume.specs.Tables.{bit_at, sector_at, tables_of, free_sectors, consistent};
ghost use Rattle.volume.specs.Refusals.{judged};
ghost use Rattle.volume.specs.Store.{after, performed};
ghost use Rattle.volume.specs.Rules.{base};
ghost use Rattle.volume.specs.Commit.{committed_tables, plan_action, commit_action};
ghost use Rattle.volume.specs.Calls.{view_of, commit_checks};
ghost use Rattle.lending.specs.Lending.{held, lengths_held, SameLent};
ghost use Rattle.pieces.specs.Arrays.{flagged, plan_of, change_of, Settling};
ghost use Rattle.commit.specs.Commit.{change_with, change_by};

use answer::{Answer, Cost};
use geometry::Geometry;
use lending::{Memory, TablesMut};
use state::{Outcome, State};

// The last member's sector is the new tail.
fn last_of(taken: &[u32]) -> u32
    requires { 1 ≤ length taken.now }
    ensures { result ≡ at taken.now (length taken.now - 1) }
{
    taken[taken.len() - 1]
}

// What is left to do when all was stored: the tables are changed, and the state says so.
fn finish(
    s: State,
    m: &mut Memory<'_>,
    blocks: &[u32],
    news: &[u32],
    taken: &[u32],
    count: u32,
    written: &[u8],
    members: u32,
    stores: u32,
    skipped: u32,
) -> Outcome
    requires members_value { members ≡ count_below (flagged written.now) (pieces_for s.geometry.l) }
    requires le_members { 1 ≤ members }
    requires geometry_value { geometry_fits s.geometry ≡ true }
    requires map_len { length m.old.map.now ≡ s.geometry.l }
    requires places_len { length m.old.places.now ≡ pieces_for s.geometry.l }
    requires numbers_len { length m.old.numbers.now ≡ pieces_for s.geometry.l }
    requires used_len { length m.old.used.now ≡ used_bytes s.geometry.n }
    requires number_value { consistent s.geometry (tables_of m.old.map.now m.old.places.now m.old.numbers.now m.old.used.now) s.tail s.number ≡ true }
    requires settling { Settling s.geometry s.number blocks.now news.now taken.now count written.now }
    ensures lent { SameLent m.new m.old }
    ensures image { m.new.image.now ≡ m.old.image.now }
    ensures lengths { lengths_held m.new ≡ lengths_held m.old }
    ensures value { (result.answer ≡ Accepted (record { stores = stores; skipped = skipped })) × (result.state ≡ committed_state s (at taken.now (length taken.now - 1)) (s.number + members)) × (tables_of m.new.map.now m.new.places.now m.new.numbers.now m.new.used.now ≡ committed_tables s (tables_of m.old.map.now m.old.places.now m.old.numbers.now m.old.used.now) (plan_of [] written.now 0 count taken.now 0) (change_of blocks.now news.now count)) }
{
    let mut t = TablesMut {
        map: &mut *m.map,
        places: &mut *m.places,
        numbers: &mut *m.numbers,
        used: &mut *m.used,
    };
    settle::settle(s, &mut t, blocks, news, taken, count as usize, written);
    let tail = last_of(taken);
    let number = s.number + members;
    Outcome {
        answer: Answer::Accepted(Cost { stores, skipped }),
        state: s.committed(tail, number),
    }
}

// Stores a planned commit, and changes the tables when all was stored. So many sectors were skipped for what is stored.
fn carry_out(
    s: State,
    m: &mut Memory<'_>,
    blocks: &[u32],
    bytes: &[u8],
    news: &[u32],
    taken: &[u32],
    count: u32,
    branches: &[u32],
    written: &[u8],
    members: u32,
    skipped: u32,
    allowance: u32,
) -> Outcome
    requires geometry_value { geometry_fits s.geometry ≡ true }
    requires image_len { length m.old.image.now ≡ sector_bytes * s.geometry.n }
    requires map_len { length m.old.map.now ≡ s.geometry.l }
    requires places_len { length m.old.places.now ≡ pieces_for s.geometry.l }
    requires numbers_len { length m.old.numbers.now ≡ pieces_for s.geometry.l }
    requires used_len { length m.old.used.now ≡ used_bytes s.geometry.n }
    requires number_value { consistent s.geometry (tables_of m.old.map.now m.old.places.now m.old.numbers.now m.old.used.now) s.tail s.number ≡ true }
    requires settling { Settling s.geometry s.number blocks.now news.now taken.now count written.now }
    requires members_value { members ≡ count_below (flagged written.now) (pieces_for s.geometry.l) }
    requires le_members { 1 ≤ members }
    requires branches_len_bound { length branches.now ≤ branch_room }
    requires bytes_len { length bytes.now ≡ sector_bytes * count }
    ensures lent { SameLent m.new m.old }
    ensures value { after result (held m.new) ≡ performed allowance (plan_action s (tables_of m.old.map.now m.old.places.now m.old.numbers.now m.old.used.now) (plan_of branches.now written.now members count taken.now skipped) (change_with blocks.now bytes.now news.now count)) (held m.old) }
{
    let image = &mut *m.image;
    let map = &mut *m.map;
    let power = store::store(
        s, image, map, blocks, bytes, news, taken, count, branches, written, members, allowance,
    );
    match power {
        None => Outcome {
            answer: Answer::PowerFailed(Cost {
                stores: allowance,
                skipped,
            }),
            state: s.cut(),
        },
        Some(left) => finish(
            s,
            m,
            blocks,
            news,
            taken,
            count,
            written,
            members,
            allowance - left,
            skipped,
        ),
    }
}

// A commit that no refusal stops: plan, store, settle.
pub fn commit(
    s: State,
    m: &mut Memory<'_>,
    head: u32,
    blocks: &[u32],
    bytes: &[u8],
    count: u32,
    allowance: u32,
) -> Outcome
    requires value { Ok tt ≡ judged (commit_checks base s (held m.old) head blocks.now true (not (ltb (free_sectors s.geometry.n (bit_at m.old.used.now)) (count + pieces_for s.geometry.l)))) }
    requires fact { (count ≡ 0) ⊎ (count ≡ length blocks.now) }
    requires bytes_len { length bytes.now ≡ sector_bytes * count }
    ensures lent { SameLent m.new m.old }
    ensures value { after result (held m.new) ≡ performed allowance (commit_action base s (tables_of m.old.map.now m.old.places.now m.old.numbers.now m.old.used.now) (view_of s.geometry (sector_at m.old.image.now)) head (change_by blocks.now bytes.now count)) (held m.old) }
{
    let mut written = [0u8; Geometry::MOST_PIECES];
    let mut branches = [0u32; Geometry::FOLDING_BRANCHES];
    let mut taken = [0u32; Geometry::COMMIT_SECTORS];
    let mut news = [0u32; Geometry::COMMIT_BLOCKS];
    let image = &mut *m.image;
    let places = &mut *m.places;
    let numbers = &mut *m.numbers;
    let used = &mut *m.used;
    let planned = plan::plan(
        s,
        image,
        places,
        numbers,
        used,
        head,
        blocks,
        count,
        &mut written,
        &mut branches,
        &mut taken,
        allowance,
    );
    let members = planned.members;
    let first = planned.branches;
    let total = (count + members) as usize;
    let sectors = &taken[..total];
    entries::entries_for(bytes, sectors, count as usize, &mut news);
    carry_out(
        s,
        m,
        blocks,
        bytes,
        &news,
        sectors,
        count,
        &branches[..first],
        &written,
        members,
        planned.skipped,
        allowance,
    )
}
