// The sectors of an image: sector k is its k-th 512 bytes.
#![tactic(auto)]

ghost use Rattle.std.specs.Prelude.{◌≡◌, ℕ, ◌+◌, ◌*◌, ◌≤◌, ◌<◌, length};
ghost use Rattle.geometry.specs.Geometry.{sector_bytes, branch_room, most_pieces};
ghost use Rattle.layout.specs.Bounded.{at, updated, updates};
ghost use Rattle.layout.specs.MapSector.{encoded};
ghost use Rattle.layout.specs.Entry.{blank, stored};
ghost use Rattle.layout.specs.ParkRecord.{park_record};
ghost use Rattle.volume.specs.Tables.{sector_at, piece_entries};
ghost use Rattle.piece_entries.specs.Cursor.{Cursor};

use geometry::Geometry;

pub fn sector(image: &[u8], k: usize) -> &[u8]
    requires { sector_bytes * k + sector_bytes ≤ length image.now }
    ensures { result.now ≡ sector_at image.now k }
{
    let first = Geometry::SECTOR * k;
    let end = first + Geometry::SECTOR;
    &image[first..end]
}

// Stores a whole sector, and changes nothing else.
pub fn store_sector(image: &mut [u8], k: usize, bytes: &[u8])
    requires sector_bytes_in_bounds { sector_bytes * k + sector_bytes ≤ length image.old }
    requires bytes_len { length bytes.now ≡ sector_bytes }
    ensures { sector_at image.new ≡ updated (sector_at image.old) k bytes.now }
{
    let first = Geometry::SECTOR * k;
    let end = first + Geometry::SECTOR;
    image[first..end].copy_from_slice(bytes);
}

// Stores a blank sector.
pub fn blank_sector(image: &mut [u8], k: usize)
    requires { sector_bytes * k + sector_bytes ≤ length image.old }
    ensures { sector_at image.new ≡ updated (sector_at image.old) k blank }
{
    store_sector(image, k, &[0u8; Geometry::SECTOR]);
}

// Stores a block as the data of sector k.
pub fn store_data(image: &mut [u8], k: usize, block: &[u8])
    requires sector_bytes_in_bounds { sector_bytes * k + sector_bytes ≤ length image.old }
    requires block_len { length block.now ≡ sector_bytes }
    ensures { sector_at image.new ≡ updated (sector_at image.old) k (stored block.now) }
{
    let first = Geometry::SECTOR * k;
    let end = first + Geometry::SECTOR;
    blocks::store_block(&mut image[first..end], block);
}

// Stores the map sector of a piece, made in its place; see map_encoding::put_map.
pub fn store_map(
    image: &mut [u8],
    k: usize,
    l: u32,
    number: u32,
    piece: u32,
    closing: bool,
    branches: &[u32],
    map: &[u32],
    blocks: &[u32],
    news: &[u32],
    from: usize,
) -> usize
    requires sector_bytes_in_bounds { sector_bytes * k + sector_bytes ≤ length image.old }
    requires piece_lt_most_pieces { piece < most_pieces }
    requires branches_len_bound { length branches.now ≤ branch_room }
    requires map_len_bound { length map.now ≤ l }
    requires blocks_in_bounds { length blocks.now ≤ length news.now }
    requires by_index { (i : ℕ) → i < length blocks.now → at blocks.now i < l }
    requires cursor { Cursor blocks.now piece from }
    ensures { Cursor blocks.now (piece + 1) result × (sector_at image.new ≡ updated (sector_at image.old) k (encoded l (record { number = number; piece = piece; closing = closing; branches = branches.now; entries = piece_entries l (updates (at map.now) (at blocks.now) (at news.now) (length blocks.now)) piece }))) }
{
    let first = Geometry::SECTOR * k;
    let end = first + Geometry::SECTOR;
    map_encoding::put_map(
        &mut image[first..end],
        l,
        number,
        piece,
        closing,
        branches,
        map,
        blocks,
        news,
        from,
    )
}

// Stores the park record.
pub fn store_park(image: &mut [u8], number: u32, tail: u32)
    requires { sector_bytes ≤ length image.old }
    ensures { sector_at image.new ≡ updated (sector_at image.old) 0 (park_record (record { number = number; tail = tail })) }
{
    park_record::put_park(&mut image[..Geometry::SECTOR], number, tail);
}
