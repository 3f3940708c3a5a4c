// Whether numbers are all different, in time linear in how many they are, whatever they are. If no two agree in their lower bits, they
// are; otherwise they are chained by their upper 15 bits, and the lower 17 of each chain's numbers are stamped in a table.
#![tactic(auto)]

ghost use Rattle.std.specs.Prelude.{◌≡◌, Bool, true, false, ℕ, ◌+◌, ◌*◌, ◌≤◌, ◌<◌, length};
ghost use Rattle.std.specs.Fn.{FnReturnsAt};
ghost use Rattle.geometry.specs.Geometry.{most_sectors};
ghost use Rattle.layout.specs.Bounded.{at, distinct};
ghost use Rattle.distinct.specs.Chains.{groups, rests, group_of, last_in, Back, Linked, Apart};

use geometry::Geometry;

// A group for each value of the upper 15 bits.
const GROUPS: u16 = 32_768;

// The values of the lower 17.
const RESTS: u32 = 131_072;

// Up to so many numbers are few, and are told apart by so many residues.
const FEW: usize = 256;

const FEW_RESIDUES: usize = 1_024;

const FEW_BYTES: usize = FEW_RESIDUES / 8;

// Up to so many are some. These, and more, are told apart by the lower 16 bits.
const SOME: usize = 4_096;

const LOWER: u32 = 65_536;

const RESIDUES: usize = LOWER as usize;

const BYTES: usize = RESIDUES / 8;

// The greatest prime below, by which numbers that agree in these bits hardly ever agree. It is tried of no more numbers than so many: for
// others the tables of the chains are cleared soon enough.
const PRIME: usize = 65_521;

const TRIED_AGAIN: usize = 16_384;

// Whether no two numbers agree modulo M, by a bit for each residue: then they are all different. If two do, they may be different all the
// same. The fewer bytes the bits take, the sooner they are cleared.
fn residues_apart<const M: usize, const MAP: usize>(xs: &[u32]) -> bool
    requires m_nonzero { 0 < M }
    requires m_bound { M ≤ 8 * MAP }
    requires map_bound { MAP ≤ most_sectors }
    ensures { result ≡ true → distinct xs.now ≡ true }
{
    let mut seen = [0u8; MAP];
    for x in xs {
        let residue = *x as usize % M;
        if bits::is_set(&seen, residue) {
            return false;
        }
        bits::set_bit(&mut seen, residue);
    }
    true
}

// The same by the lower 16 bits, and by a byte for each residue: each number takes less time, and the table is cleared later.
fn bytes_apart(xs: &[u32]) -> bool
    ensures { result ≡ true → distinct xs.now ≡ true }
{
    let mut seen = [false; RESIDUES];
    for x in xs {
        let residue = (*x % LOWER) as usize;
        if seen[residue] {
            return false;
        }
        seen[residue] = true;
    }
    true
}

// Chains the numbers by group: a group's head is one more than the index of its last number, and next leads from each number to the
// one before it in its group; 0 stands for none, since a link is two bytes and an Option would be four.
fn link(xs: &[u32], heads: &mut [u32], next: &mut [u16])
    requires xs_len_bound { length xs.now ≤ most_sectors }
    requires heads_len { length heads.old ≡ groups }
    requires by_index { (g : ℕ) → at heads.old g ≡ 0 }
    requires xs_in_bounds { length xs.now ≤ length next.old }
    ensures { Linked xs.now heads.new next.new }
{
    for (i, x) in xs.iter().enumerate() {
        let g = (*x / RESTS) as usize;
        next[i] = heads[g] as u16;
        heads[g] = (i + 1) as u32;
    }
}

// Whether the numbers of group g are all different. Earlier groups left lower stamps, so the table is not cleared between groups. A chain is
// followed to its end: no index is counted.
fn chain_distinct(xs: &[u32], next: &[u16], stamps: &mut [u16], head: u32, g: u16) -> bool
    requires g_lt_groups { g < groups }
    requires xs_in_bounds { length xs.now ≤ length next.now }
    requires back { Back xs.now next.now }
    requires head_value { head ≡ last_in (group_of xs.now) g (length xs.now) }
    requires stamps_len { length stamps.old ≡ rests }
    requires by_index { (k : ℕ) → at stamps.old k ≤ g }
    ensures { (result ≡ true → Apart xs.now g) × (result ≡ false → distinct xs.now ≡ false) × ((k : ℕ) → at stamps.new k ≤ g + 1) }
{
    let mut p = head;
    while p != 0 {
        let i = (p - 1) as usize;
        let k = (xs[i] % RESTS) as usize;
        p = next[i] as u32;
        if stamps[k] == g + 1 {
            return false;
        }
        stamps[k] = g + 1;
    }
    true
}

// Whether the numbers of every group are all different.
fn groups_distinct(xs: &[u32], heads: &[u32], next: &[u16], stamps: &mut [u16]) -> bool
    requires xs_in_bounds { length xs.now ≤ length next.now }
    requires heads_len { length heads.now ≡ groups }
    requires linked { Linked xs.now heads.now next.now }
    requires stamps_len { length stamps.old ≡ rests }
    requires by_index { (k : ℕ) → at stamps.old k ≤ 0 }
    ensures { result ≡ distinct xs.now }
{
    for g in 0..GROUPS {
        if !chain_distinct(xs, next, stamps, heads[g as usize], g) {
            return false;
        }
    }
    true
}

// Whether the numbers are all different, by other residues and then by chains: never more than four steps for one. Its tables are half
// a megabyte, and it is never merged into its callers, so that the compiler keeps the tables out of their frames.
#[inline(never)]
fn words_distinct(xs: &[u32]) -> bool
    requires { length xs.now ≤ most_sectors }
    ensures { result ≡ distinct xs.now }
{
    if xs.len() <= TRIED_AGAIN && residues_apart::<PRIME, BYTES>(xs) {
        return true;
    }
    let mut heads = [0u32; GROUPS as usize];
    let mut next = [0u16; Geometry::MOST_SECTORS as usize];
    let mut stamps = [0u16; RESTS as usize];
    link(xs, &mut heads, &mut next);
    groups_distinct(xs, &heads, &next, &mut stamps)
}

// The answer by a first test, which says true of no numbers but such as are all different, and otherwise by the others.
fn distinct_by<F: Fn(&[u32]) -> bool>(xs: &[u32], apart: F) -> bool
    requires few { length xs.now ≤ most_sectors }
    requires callable { F.IsAlwaysCallable apart }
    requires sure { (r : Bool) → FnReturnsAt F.Fn apart xs.now r → r ≡ true → distinct xs.now ≡ true }
    ensures { result ≡ distinct xs.now }
{
    if apart(xs) {
        return true;
    }
    words_distinct(xs)
}

// Whether no two of the numbers are equal. The fewer they are, the smaller is the table that is cleared for them.
pub fn numbers_distinct(xs: &[u32]) -> bool
    requires { length xs.now ≤ most_sectors }
    ensures { result ≡ distinct xs.now }
{
    if xs.len() <= FEW && residues_apart::<FEW_RESIDUES, FEW_BYTES>(xs) {
        return true;
    }
    if xs.len() <= SOME {
        return distinct_by(xs, residues_apart::<RESIDUES, BYTES>);
    }
    distinct_by(xs, bytes_apart)
}
