// The steps of a walk from its tail.
#![tactic(auto)]

ghost use Rattle.std.specs.Prelude.{◌≡◌, true, ◌*◌, ◌≤◌, ◌<◌, length, replicate};
ghost use Rattle.geometry.specs.Geometry.{sector_bytes, pieces_for, geometry_fits};
ghost use Rattle.layout.specs.Bounded.{best, list_from};
ghost use Rattle.volume.specs.Tables.{sector_at};
ghost use Rattle.volume.specs.Recover.{image_view, waiting_number, walk_step, walked_for, walk_from};
ghost use Rattle.signed.specs.Signed.{signed_at};
ghost use Rattle.targets.specs.Waiting.{walk_of, Waits};

use geometry::Geometry;

// Takes the sector that waits at p, the newest, and reads its branches.
fn take_and_read(
    waiting: &mut [u32],
    tree: &mut [u64],
    taken: &mut [u32],
    image: &[u8],
    g: Geometry,
    p: usize,
)
    requires image_len { length image.now ≡ sector_bytes * g.n }
    requires waits { Waits (pieces_for g.l) (image_view g (sector_at image.now)) waiting.old tree.old taken.old }
    requires p_bound { p < pieces_for g.l }
    requires p_value { p ≡ best (waiting_number (image_view g (sector_at image.now)) (walk_of waiting.old taken.old)) (pieces_for g.l) }
    requires fact { waiting_number (image_view g (sector_at image.now)) (walk_of waiting.old taken.old) p ≡ 0 → ⊥ }
    ensures { (walk_of waiting.new taken.new ≡ walk_step (pieces_for g.l) (image_view g (sector_at image.now)) (walk_of waiting.old taken.old)) × Waits (pieces_for g.l) (image_view g (sector_at image.now)) waiting.new tree.new taken.new }
{
    let k = waiting[p];
    tournament::change(tree, taken.len(), p, 0);
    waiting[p] = 0;
    taken[p] = k;
    targets::read_targets(waiting, tree, taken, image, g, k);
}

// Takes the newest waiting sector and reads its branches. Nothing happens where none waits.
fn walk_step(waiting: &mut [u32], tree: &mut [u64], taken: &mut [u32], image: &[u8], g: Geometry)
    requires image_len { length image.now ≡ sector_bytes * g.n }
    requires l_nonzero { 0 < pieces_for g.l }
    requires waits { Waits (pieces_for g.l) (image_view g (sector_at image.now)) waiting.old tree.old taken.old }
    ensures { (walk_of waiting.new taken.new ≡ walk_step (pieces_for g.l) (image_view g (sector_at image.now)) (walk_of waiting.old taken.old)) × Waits (pieces_for g.l) (image_view g (sector_at image.now)) waiting.new tree.new taken.new }
{
    let p = tournament::first(tree, taken.len());
    if tournament::key_of(tree, taken.len(), p) == 0 {
        return;
    }
    take_and_read(waiting, tree, taken, image, g, p);
}

// So many steps from where the tail waits.
fn walk_steps(waiting: &mut [u32], tree: &mut [u64], taken: &mut [u32], image: &[u8], g: Geometry)
    requires image_len { length image.now ≡ sector_bytes * g.n }
    requires l_nonzero { 0 < pieces_for g.l }
    requires waits { Waits (pieces_for g.l) (image_view g (sector_at image.now)) waiting.old tree.old taken.old }
    ensures { walk_of waiting.new taken.new ≡ walked_for (pieces_for g.l) (image_view g (sector_at image.now)) (walk_of waiting.old taken.old) (pieces_for g.l) }
{
    for _step in 0..taken.len() {
        walk_step(waiting, tree, taken, image, g);
    }
}

// A walk from the tail, where nothing waits and nothing is taken yet.
fn walk_waiting(
    waiting: &mut [u32],
    tree: &mut [u64],
    taken: &mut [u32],
    image: &[u8],
    g: Geometry,
    tail: u32,
)
    requires image_len { length image.now ≡ sector_bytes * g.n }
    requires le_tail { 1 ≤ tail }
    requires tail_value { signed_at g (sector_at image.now) tail ≡ true }
    requires waiting_value { waiting.old ≡ replicate (pieces_for g.l) 0 }
    requires taken_value { taken.old ≡ replicate (pieces_for g.l) 0 }
    requires waits { Waits (pieces_for g.l) (image_view g (sector_at image.now)) waiting.old tree.old taken.old }
    ensures { taken.new ≡ list_from (walk_from (pieces_for g.l) (image_view g (sector_at image.now)) tail) 0 (pieces_for g.l) }
{
    let s = images::sector(image, tail as usize);
    targets::put_in(waiting, tree, s, tail);
    walk_steps(waiting, tree, taken, image, g);
}

// The sector that a walk from the tail takes for each piece, 0 for none, as its clause says.
pub fn walk_from(taken: &mut [u32], image: &[u8], g: Geometry, tail: u32)
    requires g_value { geometry_fits g ≡ true }
    requires image_len { length image.now ≡ sector_bytes * g.n }
    requires le_tail { 1 ≤ tail }
    requires tail_value { signed_at g (sector_at image.now) tail ≡ true }
    requires taken_value { taken.old ≡ replicate (pieces_for g.l) 0 }
    ensures { taken.new ≡ list_from (walk_from (pieces_for g.l) (image_view g (sector_at image.now)) tail) 0 (pieces_for g.l) }
{
    let mut waiting = [0u32; Geometry::MOST_PIECES];
    let mut tree = [0u64; tournament::TREE];
    let pieces = taken.len();
    tournament::start(&mut tree, pieces);
    walk_waiting(&mut waiting[..pieces], &mut tree, taken, image, g, tail);
}
