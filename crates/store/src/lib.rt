// The stores of a commit: data in block order, then the map sectors, under the allowance.
#![tactic(auto)]

ghost use Rattle.std.specs.Prelude.{◌≡◌, cond, [], ◌∷◌, ◌++◌, ℕ, suc, ◌+◌, ◌*◌, ◌-◌, ◌≤◌, ◌<◌, ◌^◌, length, take, eqb};
ghost use Rattle.geometry.specs.Geometry.{sector_bytes, branch_room, pieces_for, most_pieces};
ghost use Rattle.layout.specs.Bounded.{at, always, count_below, is_zero, updated, updates};
ghost use Rattle.layout.specs.MapSector.{encoded};
ghost use Rattle.volume.specs.Tables.{sector_at, tables_of, piece_entries};
ghost use Rattle.volume.specs.Store.{applied, stores_below};
ghost use Rattle.volume.specs.Commit.{member_store};
ghost use Rattle.power.specs.Power.{powered};
ghost use Rattle.pieces.specs.Arrays.{flagged, plan_of, change_of, block_store};
ghost use Rattle.piece_entries.specs.Cursor.{Cursor};
ghost use Rattle.store.specs.Ready.{Ready};

use geometry::Geometry;
use state::State;

// The data sectors, in block order.
fn store_data(
    image: &mut [u8],
    n: u32,
    taken: &[u32],
    bytes: &[u8],
    count: u32,
    allowance: u32,
) -> Option<u32>
    requires image_len { length image.old ≡ sector_bytes * n }
    requires bytes_len { length bytes.now ≡ sector_bytes * count }
    requires count_in_bounds { count ≤ length taken.now }
    requires by_index { (i : ℕ) → i < length taken.now → at taken.now i < n }
    ensures { (result ≡ powered (count_below always count) allowance) × (sector_at image.new ≡ applied (take allowance (stores_below always (block_store taken.now bytes.now) count)) (sector_at image.old)) }
{
    let mut left = allowance;
    for i in 0..count {
        left = left.checked_sub(1)?;
        let k = taken[i as usize] as usize;
        images::store_data(image, k, images::sector(bytes, i as usize));
    }
    Some(left)
}

// The first member has the listed branches; each after it has one, to the member before.
fn branches_of<'a>(branches: &'a [u32], taken: &'a [u32], place: usize, j: u32) -> &'a [u32]
    requires j_le_place { j ≤ place }
    requires place_in_bounds { place ≤ length taken.now }
    ensures { result.now ≡ cond (is_zero j) branches.now (at taken.now (place - 1) ∷ []) }
{
    if j == 0 {
        return branches;
    }
    &taken[place - 1..place]
}

// The j-th member, of piece p. Each after the first has one branch, to the member before; the last one closes. The piece's
// blocks stand from `from` on; answers where they end.
fn store_member(
    s: State,
    image: &mut [u8],
    map: &[u32],
    blocks: &[u32],
    news: &[u32],
    taken: &[u32],
    count: u32,
    branches: &[u32],
    members: u32,
    p: u32,
    j: u32,
    from: usize,
) -> usize
    requires image_len { length image.old ≡ sector_bytes * s.geometry.n }
    requires map_len { length map.now ≡ s.geometry.l }
    requires blocks_in_bounds { length blocks.now ≤ length news.now }
    requires by_index { (i : ℕ) → i < length blocks.now → at blocks.now i < s.geometry.l }
    requires by_index_2 { (i : ℕ) → i < length taken.now → at taken.now i < s.geometry.n }
    requires members_value { count + members ≡ length taken.now }
    requires branches_len_bound { length branches.now ≤ branch_room }
    requires members_bound { s.number + members < 2 ^ 32 }
    requires j_lt_members { j < members }
    requires p_lt_most_pieces { p < most_pieces }
    requires cursor { Cursor blocks.now p from }
    ensures { Cursor blocks.now (p + 1) result × (sector_at image.new ≡ updated (sector_at image.old) (at taken.now (count + j)) (encoded s.geometry.l (record { number = suc (s.number + j); piece = p; closing = eqb (suc j) members; branches = cond (is_zero j) branches.now (at taken.now (count + (j - 1)) ∷ []); entries = piece_entries s.geometry.l (updates (at map.now) (at blocks.now) (at news.now) (length blocks.now)) p }))) }
{
    let l = s.geometry.l;
    let number = s.number + 1 + j;
    let closing = j + 1 == members;
    let place = (count as usize) + (j as usize);
    let k = taken[place] as usize;
    let listed = branches_of(branches, taken, place, j);
    images::store_map(
        image, k, l, number, p, closing, listed, map, blocks, news, from,
    )
}

// The members, by piece.
fn store_members(
    s: State,
    image: &mut [u8],
    map: &[u32],
    blocks: &[u32],
    news: &[u32],
    taken: &[u32],
    count: u32,
    branches: &[u32],
    written: &[u8],
    members: u32,
    allowance: u32,
) -> Option<u32>
    requires image_len { length image.old ≡ sector_bytes * s.geometry.n }
    requires ready { Ready s map.now blocks.now news.now taken.now count branches.now written.now members }
    ensures { (result ≡ powered (count_below (flagged written.now) (pieces_for s.geometry.l)) allowance) × (sector_at image.new ≡ applied (take allowance (stores_below (flagged written.now) (member_store s (tables_of map.now [] [] []) (plan_of branches.now written.now members count taken.now 0) (change_of blocks.now news.now count)) (pieces_for s.geometry.l))) (sector_at image.old)) }
{
    let mut left = allowance;
    let mut j = 0;
    let mut from = 0;
    for p in 0..Geometry::pieces_for(s.geometry.l) {
        if written[p as usize] != 1 {
            continue;
        }
        left = left.checked_sub(1)?;
        from = store_member(
            s, image, map, blocks, news, taken, count, branches, members, p, j, from,
        );
        j += 1;
    }
    Some(left)
}

// All stores of a commit.
pub fn store(
    s: State,
    image: &mut [u8],
    map: &[u32],
    blocks: &[u32],
    bytes: &[u8],
    news: &[u32],
    taken: &[u32],
    count: u32,
    branches: &[u32],
    written: &[u8],
    members: u32,
    allowance: u32,
) -> Option<u32>
    requires image_len { length image.old ≡ sector_bytes * s.geometry.n }
    requires ready { Ready s map.now blocks.now news.now taken.now count branches.now written.now members }
    requires bytes_len { length bytes.now ≡ sector_bytes * count }
    ensures { (result ≡ powered (length (stores_below always (block_store taken.now bytes.now) count ++ stores_below (flagged written.now) (member_store s (tables_of map.now [] [] []) (plan_of branches.now written.now members count taken.now 0) (change_of blocks.now news.now count)) (pieces_for s.geometry.l))) allowance) × (sector_at image.new ≡ applied (take allowance (stores_below always (block_store taken.now bytes.now) count ++ stores_below (flagged written.now) (member_store s (tables_of map.now [] [] []) (plan_of branches.now written.now members count taken.now 0) (change_of blocks.now news.now count)) (pieces_for s.geometry.l))) (sector_at image.old)) }
{
    let left = store_data(image, s.geometry.n, taken, bytes, count, allowance)?;
    store_members(
        s, image, map, blocks, news, taken, count, branches, written, members, left,
    )
}
