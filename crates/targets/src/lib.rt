// The targets that a walk reads, and which of them then wait.
#![tactic(auto)]

ghost use Rattle.std.specs.Prelude.{◌≡◌, true, ◌*◌, ◌<◌, ◌≤◌, length};
ghost use Rattle.geometry.specs.Geometry.{sector_bytes, pieces_for, most_pieces};
ghost use Rattle.layout.specs.Bounded.{at};
ghost use Rattle.layout.specs.Word.{words_of};
ghost use Rattle.volume.specs.Tables.{sector_at};
ghost use Rattle.volume.specs.Commit.{branches_in};
ghost use Rattle.volume.specs.Recover.{image_view, number_in, target_waits, targets_read};
ghost use Rattle.tournament.specs.Tournament.{tree_length, Tournament};
ghost use Rattle.signed.specs.Signed.{signed_at};
ghost use Rattle.targets.specs.Waiting.{walk_of, may_wait, does_wait, Waits, Put};

use geometry::Geometry;

// What waits and what is taken of each piece stands in arrays with 0 for none, as `walk_of` says in the clauses.

// Whether a target waits if it is signed: it is lower in number than the holder, of a piece not done, and newer than what waits for the piece.
fn may_wait(tree: &[u64], taken: &[u32], holder: u32, number: u32, p: usize) -> bool
    requires tree_len { length tree.now ≡ tree_length }
    requires taken_len_bound { length taken.now ≤ most_pieces }
    ensures { result ≡ may_wait tree.now taken.now holder number p }
{
    if taken.len() <= p {
        return false;
    }
    if holder <= number {
        return false;
    }
    if taken[p] != 0 {
        return false;
    }
    tournament::key_of(tree, taken.len(), p) < number as u64
}

// Whether a target with the bytes s waits. One that would not by its header is not summed: it changes nothing, signed or not.
fn does_wait(tree: &[u64], taken: &[u32], s: &[u8], g: Geometry, holder: u32) -> bool
    requires tree_len { length tree.now ≡ tree_length }
    requires taken_len_bound { length taken.now ≤ most_pieces }
    requires s_len { length s.now ≡ sector_bytes }
    requires le_n { 1 ≤ g.n }
    ensures { result ≡ does_wait g tree.now taken.now holder s.now }
{
    let number = map_sector::number_of(s);
    let p = map_sector::piece_of(s) as usize;
    if !may_wait(tree, taken, holder, number, p) {
        return false;
    }
    map_sector::is_valid(s, g)
}

// Puts sector k with the bytes s in where it waits for its piece.
pub fn put_in(waiting: &mut [u32], tree: &mut [u64], s: &[u8], k: u32)
    requires s_len { length s.now ≡ sector_bytes }
    requires s_in_bounds { at (words_of s.now) 4 < length waiting.old }
    requires waiting_len_bound { length waiting.old ≤ most_pieces }
    requires tree_len { length tree.old ≡ tree_length }
    requires tournament { Tournament (length waiting.old) tree.old }
    ensures { Put s.now k waiting.old tree.old waiting.new tree.new }
{
    let p = map_sector::piece_of(s) as usize;
    let number = map_sector::number_of(s);
    tournament::change(tree, waiting.len(), p, number);
    waiting[p] = k;
}

// Reads a target.
fn read_target(
    waiting: &mut [u32],
    tree: &mut [u64],
    taken: &[u32],
    image: &[u8],
    g: Geometry,
    holder: u32,
    target: u32,
)
    requires image_len { length image.now ≡ sector_bytes * g.n }
    requires le_target { 1 ≤ target }
    requires target_lt_n { target < g.n }
    requires waits { Waits (pieces_for g.l) (image_view g (sector_at image.now)) waiting.old tree.old taken.now }
    ensures { (walk_of waiting.new taken.now ≡ target_waits (image_view g (sector_at image.now)) holder (walk_of waiting.old taken.now) target (image_view g (sector_at image.now) target)) × Waits (pieces_for g.l) (image_view g (sector_at image.now)) waiting.new tree.new taken.now }
{
    let s = images::sector(image, target as usize);
    if !does_wait(tree, taken, s, g, holder) {
        return;
    }
    put_in(waiting, tree, s, target);
}

// Reads the branches of sector k, in their order.
pub fn read_targets(
    waiting: &mut [u32],
    tree: &mut [u64],
    taken: &[u32],
    image: &[u8],
    g: Geometry,
    k: u32,
)
    requires image_len { length image.now ≡ sector_bytes * g.n }
    requires k_value { signed_at g (sector_at image.now) k ≡ true }
    requires waits { Waits (pieces_for g.l) (image_view g (sector_at image.now)) waiting.old tree.old taken.now }
    ensures { (walk_of waiting.new taken.now ≡ targets_read (image_view g (sector_at image.now)) (number_in (image_view g (sector_at image.now) k)) (walk_of waiting.old taken.now) (branches_in (image_view g (sector_at image.now) k))) × Waits (pieces_for g.l) (image_view g (sector_at image.now)) waiting.new tree.new taken.now }
{
    let s = images::sector(image, k as usize);
    let holder = map_sector::number_of(s);
    let count = map_sector::branch_count(s) as usize;
    for i in 0..count {
        let target = map_sector::branch_at(s, i);
        read_target(waiting, tree, taken, image, g, holder, target);
    }
}
