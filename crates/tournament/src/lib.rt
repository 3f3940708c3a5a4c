// Keys in falling order without a look at all of them for each: a tournament with an entry for each piece, in which the greater
// of two goes on. When an entry changes, only its own matches, at most eight, are played anew.
#![tactic(auto)]

ghost use Rattle.std.specs.Prelude.{◌≡◌, ℕ, ◌+◌, ◌*◌, ◌-◌, ◌/◌, ◌%◌, ◌≤◌, ◌<◌, length, set};
ghost use Rattle.geometry.specs.Geometry.{most_pieces};
ghost use Rattle.layout.specs.Bounded.{at, best};
ghost use Rattle.tournament.specs.Tournament.{tree_length, greater, ranked, key_at, first_struck, below, Played, Tournament, Replayed, Keyed};

use geometry::Geometry;

// The places of the largest tournament: two for each entry.
pub const TREE: usize = 2 * Geometry::MOST_PIECES;

// What puts the lowest of equal keys first is below this.
const RANKS: u64 = Geometry::MOST_PIECES as u64;

// The place that meets place i in a match.
fn other(i: usize) -> usize
    requires { i < tree_length }
    ensures { result ≡ i + 1 - 2 * (i % 2) }
{
    i + 1 - 2 * (i % 2)
}

// Plays the match at place k.
fn play(tree: &mut [u64], k: usize)
    requires tree_len { length tree.old ≡ tree_length }
    requires k_lt_most_pieces { k < most_pieces }
    ensures { tree.new ≡ set tree.old k (greater (at tree.old (2 * k)) (at tree.old (2 * k + 1))) }
{
    tree[k] = tree[2 * k].max(tree[2 * k + 1]);
}

// Plays the matches of entry q anew, up to place 1: the index is halved, not counted. The winner so far is kept at hand: it need not be
// read again.
fn replay(tree: &mut [u64], n: usize, q: usize)
    requires tree_len { length tree.old ≡ tree_length }
    requires n_le_most_pieces { n ≤ most_pieces }
    requires q_lt_n { q < n }
    requires by_index { (k : ℕ) → 1 ≤ k → k < n → (k ≡ (n + q) / 2 → ⊥) → Played tree.old k }
    ensures { Replayed n tree.old tree.new }
{
    let mut i = n + q;
    let mut won = tree[i];
    while 1 < i {
        won = won.max(tree[other(i)]);
        i /= 2;
        tree[i] = won;
    }
}

// Plays all matches among n entries.
pub fn play_all(tree: &mut [u64], n: usize)
    requires tree_len { length tree.old ≡ tree_length }
    requires n_le_most_pieces { n ≤ most_pieces }
    ensures { Replayed n tree.old tree.new }
{
    for k in (1..n).rev() {
        play(tree, k);
    }
}

// Makes entry q hold a key. Its matches are yet to be played.
pub fn enter(tree: &mut [u64], n: usize, q: usize, key: u32)
    requires tree_len { length tree.old ≡ tree_length }
    requires n_le_most_pieces { n ≤ most_pieces }
    requires q_lt_n { q < n }
    ensures { tree.new ≡ set tree.old (n + q) (ranked n q key) }
{
    tree[n + q] = RANKS * (key as u64) + (n - 1 - q) as u64;
}

// Makes every key 0.
pub fn start(tree: &mut [u64], n: usize)
    requires tree_len { length tree.old ≡ tree_length }
    requires n_le_most_pieces { n ≤ most_pieces }
    ensures { Keyed n (λ _. 0) tree.new }
{
    for q in 0..n {
        enter(tree, n, q, 0);
    }
    play_all(tree, n);
}

// Makes entry q hold another key, and plays its matches anew.
pub fn change(tree: &mut [u64], n: usize, q: usize, key: u32)
    requires tree_len { length tree.old ≡ tree_length }
    requires n_le_most_pieces { n ≤ most_pieces }
    requires q_lt_n { q < n }
    requires tournament { Tournament n tree.old }
    ensures { Replayed n (set tree.old (n + q) (ranked n q key)) tree.new }
{
    enter(tree, n, q, key);
    replay(tree, n, q);
}

// The key that entry q holds.
pub fn key_of(tree: &[u64], n: usize, q: usize) -> u64
    requires tree_len { length tree.now ≡ tree_length }
    requires n_le_most_pieces { n ≤ most_pieces }
    requires q_lt_n { q < n }
    ensures { result ≡ key_at n tree.now q }
{
    tree[n + q] / RANKS
}

// The entry with the greatest key, of equal ones the lowest.
pub fn first(tree: &[u64], n: usize) -> usize
    requires tree_len { length tree.now ≡ tree_length }
    requires n_le_most_pieces { n ≤ most_pieces }
    requires n_nonzero { 0 < n }
    requires tournament { Tournament n tree.now }
    ensures { (result ≡ best (key_at n tree.now) n) × (result < n) }
{
    n - 1 - (tree[1] % RANKS) as usize
}

// Strikes out the first entry: its key is 0 from now on.
fn strike_first(tree: &mut [u64], n: usize)
    requires tree_len { length tree.old ≡ tree_length }
    requires n_le_most_pieces { n ≤ most_pieces }
    requires n_nonzero { 0 < n }
    requires tournament { Tournament n tree.old }
    ensures { Replayed n (first_struck n tree.old) tree.new }
{
    let q = first(tree, n);
    change(tree, n, q, 0);
}

// Strikes out every entry whose key is not below the bound. How many they are is not known before.
pub fn keep_below(tree: &mut [u64], n: usize, bound: u32)
    requires tree_len { length tree.old ≡ tree_length }
    requires n_le_most_pieces { n ≤ most_pieces }
    requires n_nonzero { 0 < n }
    requires bound_nonzero { 0 < bound }
    requires tournament { Tournament n tree.old }
    ensures { Keyed n (below bound (key_at n tree.old)) tree.new }
{
    let least = RANKS * (bound as u64);
    while least <= tree[1] {
        strike_first(tree, n);
    }
}
