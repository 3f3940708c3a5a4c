// The used map: one bit a sector, lowest bit of byte 0 first.
#![tactic(auto)]

ghost use Rattle.std.specs.Prelude.{◌≡◌, true, false, cond, ℕ, ◌+◌, ◌*◌, ◌/◌, ◌%◌, ◌^◌, ◌≤◌, ◌<◌, length, eqb};
ghost use Rattle.layout.specs.Bounded.{count_below, updated};
ghost use Rattle.volume.specs.Tables.{bit_at, free_sectors};

// Whether sector k is marked.
pub fn is_set(used: &[u8], k: usize) -> bool
    requires { k < 8 * length used.now }
    ensures { result ≡ bit_at used.now k }
{
    (used[k / 8] >> (k % 8)) % 2 == 1
}

// Marks sector k.
pub fn set_bit(used: &mut [u8], k: usize)
    requires { k < 8 * length used.old }
    ensures { bit_at used.new ≡ updated (bit_at used.old) k true }
{
    let q = k / 8;
    used[q] = used[q] | (1u8 << (k % 8));
}

// Frees sector k. (One function with set_bit, given the operator, would be no plainer.)
pub fn clear_bit(used: &mut [u8], k: usize)
    requires { k < 8 * length used.old }
    ensures { bit_at used.new ≡ updated (bit_at used.old) k false }
{
    let q = k / 8;
    used[q] = used[q] & (255 - (1u8 << (k % 8)));
}

// A word of 64 sectors that are all marked.
pub const FULL: u64 = 18_446_744_073_709_551_615;

// The bits of sectors 64w to 64w + 63 as one number, sector 64w in the lowest bit.
pub fn word_at(used: &[u8], w: usize) -> u64
    requires { 8 * w + 8 ≤ length used.now }
    ensures { (j : ℕ) → j < 64 → eqb (result / 2 ^ j % 2) 1 ≡ bit_at used.now (64 * w + j) }
{
    let first = 8 * w;
    u64::from_le_bytes([
        used[first],
        used[first + 1],
        used[first + 2],
        used[first + 3],
        used[first + 4],
        used[first + 5],
        used[first + 6],
        used[first + 7],
    ])
}

// Stores the bits of sectors 64w to 64w + 63.
pub fn put_word(used: &mut [u8], w: usize, x: u64)
    requires { 8 * w + 8 ≤ length used.old }
    ensures { bit_at used.new ≡ (λ k. cond (eqb (k / 64) w) (eqb (x / 2 ^ (k % 64) % 2) 1) (bit_at used.old k)) }
{
    let first = 8 * w;
    // Eight stores of a byte, which the compiler makes one: copy_from_slice would first test whether the two overlap.
    for i in 0..8 {
        used[first + i] = ((x >> (8 * i)) % 256) as u8;
    }
}

// Sectors 0 to 64 * words - 1 that are marked.
fn count_words(used: &[u8], words: usize) -> u32
    requires words_in_bounds { 8 * words ≤ length used.now }
    requires words_bound { 64 * words < 2 ^ 32 }
    ensures { result ≡ count_below (bit_at used.now) (64 * words) }
{
    let mut set: u32 = 0;
    for w in 0..words {
        set += u64::count_ones(word_at(used, w));
    }
    set
}

// Sectors 0 to n - 1 that are not marked: whole words at once, and only those past the last whole word one by one.
pub fn count_free(used: &[u8], n: u32) -> u32
    requires { n ≤ 8 * length used.now }
    ensures { result ≡ free_sectors n (bit_at used.now) }
{
    let whole = n / 64 * 64;
    let mut free = whole - count_words(used, (n / 64) as usize);
    for k in whole..n {
        if !is_set(used, k as usize) {
            free += 1;
        }
    }
    free
}
