// Blocks as they are stored, and map entries. A block that begins with the map mark is stored flipped: with its first byte
// complemented, and bit 31 of its entry set.
#![tactic(auto)]

ghost use Rattle.std.specs.Prelude.{◌≡◌, ◌<◌, ◌^◌, length};
ghost use Rattle.geometry.specs.Geometry.{sector_bytes};
ghost use Rattle.layout.specs.Bounded.{at, all, is_zero};
ghost use Rattle.layout.specs.Entry.{sector_of, is_flipped, complemented, needs_flip, stored, entry_for, restored};

use geometry::Geometry;

// Bit 31 of an entry.
const FLIPPED: u32 = 2_147_483_648;

// The map's entry of a block, zero past the map's end.
pub fn entry_of(map: &[u32], block: usize) -> u32
    ensures { result ≡ at map.now block }
{
    map.get(block).copied().unwrap_or(0)
}

// Bits 0 to 30 of an entry: the block's sector.
pub fn sector_of(entry: u32) -> u32
    ensures { result ≡ sector_of entry }
{
    entry % FLIPPED
}

pub fn is_flipped(entry: u32) -> bool
    ensures { result ≡ is_flipped entry }
{
    FLIPPED <= entry
}

pub fn needs_flip(block: &[u8]) -> bool
    ensures { result ≡ needs_flip block.now }
{
    marks::starts_with(block, &marks::MAP_MARK)
}

// The entry of a block that is stored in a sector.
pub fn entry_for(block: &[u8], sector: u32) -> u32
    requires { sector < 2 ^ 31 }
    ensures { result ≡ entry_for block.now sector }
{
    if needs_flip(block) {
        return sector + FLIPPED;
    }
    sector
}

// Complements the first byte.
fn complement(s: &mut [u8])
    requires { 0 < length s.old }
    ensures { s.new ≡ complemented s.old }
{
    let b = s[0];
    s[0] = 255 - b;
}

// Fills dst with the bytes that stand for a block in its sector.
pub fn store_block(dst: &mut [u8], block: &[u8])
    requires dst_len { length dst.old ≡ sector_bytes }
    requires block_len { length block.now ≡ sector_bytes }
    ensures { dst.new ≡ stored block.now }
{
    dst.copy_from_slice(block);
    if needs_flip(block) {
        complement(dst);
    }
}

// Fills out with the block that an entry reads as, given the bytes of its sector.
pub fn restore_block(out: &mut [u8], entry: u32, bytes: &[u8])
    requires out_len { length out.old ≡ sector_bytes }
    requires bytes_len { length bytes.now ≡ sector_bytes }
    ensures { out.new ≡ restored entry bytes.now }
{
    if entry == 0 {
        out.copy_from_slice(&[0u8; Geometry::SECTOR]);
        return;
    }
    out.copy_from_slice(bytes);
    if is_flipped(entry) {
        complement(out);
    }
}

// Whether every byte is zero. All are looked at, so that the compiler compares several at a time.
pub fn is_blank(s: &[u8]) -> bool
    ensures { result ≡ all is_zero s.now }
{
    s.iter().fold(true, |good, b| good & (*b == 0))
}
