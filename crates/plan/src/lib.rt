// The plan of a commit: which pieces it writes, the first member's branches, and the sectors that it takes. Nothing is stored and
// no table is touched.
#![tactic(auto)]

ghost use Rattle.std.specs.Prelude.{◌≡◌, true, cond, ◌||◌, [], ℕ, ◌+◌, ◌*◌, ◌≤◌, ◌<◌, length, take, replicate, ltb};
ghost use Rattle.geometry.specs.Geometry.{sector_bytes, pieces_for, most_sectors, used_bytes, geometry_fits, drive_fits, branch_room, folding_branches, most_pieces, commit_blocks, commit_sectors};
ghost use Rattle.layout.specs.Bounded.{at, list_from, count_below};
ghost use Rattle.volume.specs.Tables.{bit_at, sector_at, tables_of};
ghost use Rattle.tracks.specs.Placing.{least_delay, place_of, skipped_by};
ghost use Rattle.volume.specs.Rules.{base};
ghost use Rattle.volume.specs.Commit.{planned};
ghost use Rattle.volume.specs.Calls.{view_of};
ghost use Rattle.power.specs.Power.{made};
ghost use Rattle.pieces.specs.Arrays.{flagged, change_of, Live, Planning};
ghost use Rattle.plan.specs.Untouched.{Untouched};

use geometry::{Drive, Geometry};
use state::State;

// How many branches the first member has, and how many members there are.
#[derive(Clone, Copy)]
struct Sizes {
    branches: usize,
    members: u32,
}

// The same, and the sum of the delays to the sectors that will be stored.
#[derive(Clone, Copy)]
pub struct Planned {
    pub branches: usize,
    pub members: u32,
    pub skipped: u32,
}

// A copy of the used map, in which the places can be marked.
fn copy_used(used: &[u8], marks: &mut [u8])
    requires used_in_bounds { length used.now ≤ length marks.old }
    requires marks_value { marks.old ≡ replicate (length marks.old) 0 }
    ensures { bit_at marks.new ≡ bit_at used.now }
{
    marks[..used.len()].copy_from_slice(used);
}

// With more branches listed than there is room for, every piece is written and the first member has none.
fn fold(written: &mut [u8], pieces: u32, listed: usize) -> usize
    requires { pieces ≤ length written.old }
    ensures { (result ≡ cond (ltb branch_room listed) 0 listed) × (flagged written.new ≡ cond (ltb branch_room listed) (λ q. ltb q pieces || flagged written.old q) (flagged written.old)) }
{
    if listed <= Geometry::BRANCH_ROOM {
        return listed;
    }
    pieces::flag_all(written, pieces);
    0
}

// The sectors that a commit takes, searched in a copy of the used map; answers the sum of the delays to those that will be stored.
fn take_in(
    used: &[u8],
    g: Geometry,
    d: Drive,
    head: u32,
    count: usize,
    taken: &mut [u32],
    allowance: u32,
    marks: &mut [u8],
    known: &mut [u8],
) -> u32
    requires g_value { geometry_fits g ≡ true }
    requires d_value { drive_fits g.n d ≡ true }
    requires used_len { length used.now ≡ used_bytes g.n }
    requires head_lt_n { head < g.n }
    requires count_in_bounds { count ≤ length taken.old }
    requires count_le_commit_sectors { count ≤ commit_sectors }
    requires used_in_bounds { length used.now ≤ length marks.old }
    requires marks_value { marks.old ≡ replicate (length marks.old) 0 }
    requires known_value { known.old ≡ replicate (length known.old) 0 }
    ensures { (take count taken.new ≡ list_from (place_of (least_delay d) g.n (bit_at used.now) head) 0 count) × (result ≡ skipped_by (least_delay d) g.n (bit_at used.now) head (made count allowance)) }
{
    copy_used(used, marks);
    placing::find_places(marks, known, g.n, d, head, count, taken, allowance)
}

// The same, with so many positions of a track kept.
fn take_on<const KEPT: usize>(
    used: &[u8],
    g: Geometry,
    d: Drive,
    head: u32,
    count: usize,
    taken: &mut [u32],
    allowance: u32,
    marks: &mut [u8],
) -> u32
    requires kept_le_most_sectors { KEPT ≤ most_sectors }
    requires g_value { geometry_fits g ≡ true }
    requires d_value { drive_fits g.n d ≡ true }
    requires used_len { length used.now ≡ used_bytes g.n }
    requires head_lt_n { head < g.n }
    requires count_in_bounds { count ≤ length taken.old }
    requires count_le_commit_sectors { count ≤ commit_sectors }
    requires used_in_bounds { length used.now ≤ length marks.old }
    requires marks_value { marks.old ≡ replicate (length marks.old) 0 }
    ensures { (take count taken.new ≡ list_from (place_of (least_delay d) g.n (bit_at used.now) head) 0 count) × (result ≡ skipped_by (least_delay d) g.n (bit_at used.now) head (made count allowance)) }
{
    let mut known = [0u8; KEPT];
    take_in(used, g, d, head, count, taken, allowance, marks, &mut known)
}

// The same in a copy of so many bytes: the one of a small volume is cleared sooner. On one track nothing is kept of its positions.
fn take_within<const BYTES: usize, const KEPT: usize>(
    used: &[u8],
    g: Geometry,
    d: Drive,
    head: u32,
    count: usize,
    taken: &mut [u32],
    allowance: u32,
) -> u32
    requires bytes_le_most_sectors { BYTES ≤ most_sectors }
    requires kept_le_most_sectors { KEPT ≤ most_sectors }
    requires g_value { geometry_fits g ≡ true }
    requires d_value { drive_fits g.n d ≡ true }
    requires used_len { length used.now ≡ used_bytes g.n }
    requires used_le_bytes { length used.now ≤ BYTES }
    requires head_lt_n { head < g.n }
    requires count_in_bounds { count ≤ length taken.old }
    requires count_le_commit_sectors { count ≤ commit_sectors }
    ensures { (take count taken.new ≡ list_from (place_of (least_delay d) g.n (bit_at used.now) head) 0 count) × (result ≡ skipped_by (least_delay d) g.n (bit_at used.now) head (made count allowance)) }
{
    let mut marks = [0u8; BYTES];
    if d.tracks == 1 {
        return take_on::<1>(used, g, d, head, count, taken, allowance, &mut marks);
    }
    take_on::<KEPT>(used, g, d, head, count, taken, allowance, &mut marks)
}

// The same, by the size of the volume.
fn take_sectors(
    used: &[u8],
    g: Geometry,
    d: Drive,
    head: u32,
    count: usize,
    taken: &mut [u32],
    allowance: u32,
) -> u32
    requires g_value { geometry_fits g ≡ true }
    requires d_value { drive_fits g.n d ≡ true }
    requires used_len { length used.now ≡ used_bytes g.n }
    requires head_lt_n { head < g.n }
    requires count_in_bounds { count ≤ length taken.old }
    requires count_le_commit_sectors { count ≤ commit_sectors }
    ensures { (take count taken.new ≡ list_from (place_of (least_delay d) g.n (bit_at used.now) head) 0 count) × (result ≡ skipped_by (least_delay d) g.n (bit_at used.now) head (made count allowance)) }
{
    if g.n <= Geometry::SMALL {
        return take_within::<{ Geometry::SMALL_USED_BYTES }, { placing::SMALL_KEPT_POSITIONS }>(
            used, g, d, head, count, taken, allowance,
        );
    }
    take_within::<{ Geometry::MOST_USED_BYTES }, { placing::KEPT_POSITIONS }>(
        used, g, d, head, count, taken, allowance,
    )
}

// Flags the pieces of the named blocks, and lists the branches to the others.
fn list_untouched(
    s: State,
    image: &[u8],
    places: &[u32],
    numbers: &[u32],
    blocks: &[u32],
    written: &mut [u8],
    branches: &mut [u32],
) -> usize
    requires geometry_value { geometry_fits s.geometry ≡ true }
    requires image_len { length image.now ≡ sector_bytes * s.geometry.n }
    requires places_len { length places.now ≡ pieces_for s.geometry.l }
    requires numbers_len { length numbers.now ≡ pieces_for s.geometry.l }
    requires number_le_greatest { s.number ≤ base.greatest }
    requires by_index { (i : ℕ) → i < length blocks.now → at blocks.now i < s.geometry.l }
    requires live { Live s.geometry (sector_at image.now) (at places.now) (pieces_for s.geometry.l) }
    requires written_value { written.old ≡ replicate most_pieces 0 }
    requires branches_len { length branches.old ≡ folding_branches }
    ensures { Untouched s places.now numbers.now (view_of s.geometry (sector_at image.now)) blocks.now written.new branches.new result }
{
    pieces::touch_pieces(written, blocks);
    listing::list_branches(
        image, s.geometry, places, numbers, written, s.number, branches,
    )
}

// Counts the members, once it is known how many branches are listed.
fn count_members(written: &mut [u8], pieces: u32, listed: usize) -> Sizes
    requires pieces_le_most_pieces { pieces ≤ most_pieces }
    requires pieces_in_bounds { pieces ≤ length written.old }
    ensures { (result.branches ≡ cond (ltb branch_room listed) 0 listed) × (flagged written.new ≡ cond (ltb branch_room listed) (λ q. ltb q pieces || flagged written.old q) (flagged written.old)) × (result.members ≡ count_below (flagged written.new) pieces) × (result.members ≤ most_pieces) }
{
    let branches = fold(written, pieces, listed);
    Sizes {
        branches,
        members: pieces::count_flagged(written, pieces),
    }
}

// Plans a commit of the named blocks with so many data sectors. The allowance says only how far what was skipped is counted.
pub fn plan(
    s: State,
    image: &[u8],
    places: &[u32],
    numbers: &[u32],
    used: &[u8],
    head: u32,
    blocks: &[u32],
    count: u32,
    written: &mut [u8],
    branches: &mut [u32],
    taken: &mut [u32],
    allowance: u32,
) -> Planned
    requires geometry_value { geometry_fits s.geometry ≡ true }
    requires drive_value { drive_fits s.geometry.n s.drive ≡ true }
    requires image_len { length image.now ≡ sector_bytes * s.geometry.n }
    requires places_len { length places.now ≡ pieces_for s.geometry.l }
    requires numbers_len { length numbers.now ≡ pieces_for s.geometry.l }
    requires used_len { length used.now ≡ used_bytes s.geometry.n }
    requires head_lt_n { head < s.geometry.n }
    requires number_le_greatest { s.number ≤ base.greatest }
    requires count_le_commit_blocks { count ≤ commit_blocks }
    requires by_index { (i : ℕ) → i < length blocks.now → at blocks.now i < s.geometry.l }
    requires live { Live s.geometry (sector_at image.now) (at places.now) (pieces_for s.geometry.l) }
    requires written_value { written.old ≡ replicate most_pieces 0 }
    requires branches_len { length branches.old ≡ folding_branches }
    requires taken_len { length taken.old ≡ commit_sectors }
    ensures { Planning (planned base s (tables_of [] places.now numbers.now used.now) (view_of s.geometry (sector_at image.now)) head (change_of blocks.now [] count)) result.branches result.members branches.new written.new count taken.new result.skipped allowance }
{
    let g = s.geometry;
    let listed = list_untouched(s, image, places, numbers, blocks, written, branches);
    let sizes = count_members(written, Geometry::pieces_for(g.l), listed);
    let total = (count + sizes.members) as usize;
    let skipped = take_sectors(used, g, s.drive, head, total, taken, allowance);
    Planned {
        branches: sizes.branches,
        members: sizes.members,
        skipped,
    }
}
