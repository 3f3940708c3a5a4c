// Flags of pieces: those that a commit touches, and those that it writes.
#![tactic(auto)]

ghost use Rattle.std.specs.Prelude.{◌≡◌, ◌||◌, ℕ, ◌≤◌, ◌<◌, length, replicate, ltb};
ghost use Rattle.geometry.specs.Geometry.{piece_of};
ghost use Rattle.layout.specs.Bounded.{at, count_below};
ghost use Rattle.volume.specs.Commit.{touches};
ghost use Rattle.pieces.specs.Arrays.{flagged};

use geometry::Geometry;

// Flags the pieces of the named blocks.
pub fn touch_pieces(flags: &mut [u8], blocks: &[u32])
    requires flags_value { flags.old ≡ replicate (length flags.old) 0 }
    requires by_index { (i : ℕ) → i < length blocks.now → piece_of (at blocks.now i) < length flags.old }
    ensures { flagged flags.new ≡ touches blocks.now }
{
    for b in blocks {
        flags[Geometry::piece_of(*b) as usize] = 1;
    }
}

// Flags every piece: a fold writes them all.
pub fn flag_all(flags: &mut [u8], pieces: u32)
    requires { pieces ≤ length flags.old }
    ensures { flagged flags.new ≡ (λ q. ltb q pieces || flagged flags.old q) }
{
    flags[..pieces as usize].fill(1);
}

// How many pieces are flagged.
pub fn count_flagged(flags: &[u8], pieces: u32) -> u32
    requires { pieces ≤ length flags.now }
    ensures { result ≡ count_below (flagged flags.now) pieces }
{
    flags[..pieces as usize].iter().filter(|f| **f == 1).count() as u32
}
