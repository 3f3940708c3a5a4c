// Refusal 3: the block numbers that a commit names, and its head.
#![tactic(auto)]

ghost use Rattle.std.specs.Prelude.{◌≡◌, suc, ◌-◌, ◌*◌, ◌≤◌, length, ltb, eqb};
ghost use Rattle.geometry.specs.Geometry.{sector_bytes};
ghost use Rattle.layout.specs.Bounded.{at, all, all_below};
ghost use Rattle.volume.specs.Calls.{blocks_fit};

use geometry::Geometry;

// The bytes are one block for each number. (The product is not formed: it might not fit.)
pub fn bytes_fit(bytes: usize, blocks: usize) -> bool
    ensures { result ≡ eqb bytes (sector_bytes * blocks) }
{
    if bytes % Geometry::SECTOR != 0 {
        return false;
    }
    bytes / Geometry::SECTOR == blocks
}

// Whether each number is below the next.
fn ascending(blocks: &[u32]) -> bool
    requires { 1 ≤ length blocks.now }
    ensures { result ≡ all_below (λ i. ltb (at blocks.now i) (at blocks.now (suc i))) (length blocks.now - 1) }
{
    blocks.is_sorted_by(|a, b| *a < *b)
}

// Whether all numbers are below l.
fn all_below(blocks: &[u32], l: u32) -> bool
    ensures { result ≡ all (λ b. ltb b l) blocks.now }
{
    blocks.iter().all(|b| *b < l)
}

// 1 to 64 strictly ascending block numbers below l, and a head below n.
pub fn blocks_fit(g: Geometry, head: u32, blocks: &[u32]) -> bool
    ensures { result ≡ blocks_fit g head blocks.now }
{
    if blocks.len() < 1 {
        return false;
    }
    if Geometry::COMMIT_BLOCKS < blocks.len() {
        return false;
    }
    if !ascending(blocks) {
        return false;
    }
    if !all_below(blocks, g.l) {
        return false;
    }
    head < g.n
}
