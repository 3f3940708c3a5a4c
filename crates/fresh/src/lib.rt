// The stores of a format: zeros in every sector, then a fresh map.
#![tactic(auto)]

ghost use Rattle.std.specs.Prelude.{◌≡◌, cond, ◌+◌, ◌*◌, ◌≤◌, ◌<◌, length, take, replicate, eqb, ltb};
ghost use Rattle.geometry.specs.Geometry.{sector_bytes, entries_per_piece, branch_room, pieces_for, most_pieces};
ghost use Rattle.layout.specs.Bounded.{always, count_below, updated};
ghost use Rattle.layout.specs.MapSector.{encoded};
ghost use Rattle.layout.specs.Entry.{blank};
ghost use Rattle.volume.specs.Tables.{sector_at};
ghost use Rattle.volume.specs.Store.{applied, stores_below};
ghost use Rattle.volume.specs.Format.{blank_store, piece_store};
ghost use Rattle.power.specs.Power.{powered};

use geometry::Geometry;

// Zeros in the first sectors, so many of them, as one run of bytes.
fn blank_first(image: &mut [u8], count: u32)
    requires { sector_bytes * count ≤ length image.old }
    ensures { sector_at image.new ≡ (λ k. cond (ltb k count) blank (sector_at image.old k)) }
{
    let end = Geometry::SECTOR * (count as usize);
    image[..end].fill(0);
}

// Zeros in sectors 0 to n - 1, ascending: as many as the allowance has.
pub fn blank_sectors(image: &mut [u8], n: u32, allowance: u32) -> Option<u32>
    requires { sector_bytes * n ≤ length image.old }
    ensures { (result ≡ powered (count_below always n) allowance) × (sector_at image.new ≡ applied (take allowance (stores_below always blank_store n)) (sector_at image.old)) }
{
    blank_first(image, n.min(allowance));
    allowance.checked_sub(n)
}

// Piece p of an empty map, into sector p + 1 with number p + 1.
fn store_empty(image: &mut [u8], l: u32, pieces: u32, p: u32, branches: &[u32])
    requires p_lt_most_pieces { p < most_pieces }
    requires sector_bytes_in_bounds { sector_bytes * p + 2 * sector_bytes ≤ length image.old }
    requires branches_len_bound { length branches.now ≤ branch_room }
    ensures { sector_at image.new ≡ updated (sector_at image.old) (p + 1) (encoded l (record { number = p + 1; piece = p; closing = eqb (p + 1) pieces; branches = branches.now; entries = replicate entries_per_piece 0 })) }
{
    let number = p + 1;
    images::store_map(
        image,
        number as usize,
        l,
        number,
        p,
        number == pieces,
        branches,
        &branches[..0],
        &branches[..0],
        &branches[..0],
        0,
    );
}

// Piece p of a fresh map. Each after the first has one branch, to the one before.
fn store_piece(image: &mut [u8], l: u32, pieces: u32, p: u32)
    requires pieces_value { pieces ≡ pieces_for l }
    requires p_lt_most_pieces { p < most_pieces }
    requires sector_bytes_in_bounds { sector_bytes * p + 2 * sector_bytes ≤ length image.old }
    ensures { sector_at image.new ≡ updated (sector_at image.old) (p + 1) (piece_store l p).bytes }
{
    let branches = [p];
    if p == 0 {
        store_empty(image, l, pieces, p, &branches[..0]);
        return;
    }
    store_empty(image, l, pieces, p, &branches[..1]);
}

// The pieces of a fresh map, ascending; only the last one closes.
pub fn store_pieces(image: &mut [u8], l: u32, pieces: u32, allowance: u32) -> Option<u32>
    requires pieces_value { pieces ≡ pieces_for l }
    requires pieces_le_most_pieces { pieces ≤ most_pieces }
    requires sector_bytes_in_bounds { sector_bytes * pieces + sector_bytes ≤ length image.old }
    ensures { (result ≡ powered (count_below always pieces) allowance) × (sector_at image.new ≡ applied (take allowance (stores_below always (piece_store l) pieces)) (sector_at image.old)) }
{
    let mut left = allowance;
    for p in 0..pieces {
        left = left.checked_sub(1)?;
        store_piece(image, l, pieces, p);
    }
    Some(left)
}
