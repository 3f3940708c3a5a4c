// The branches of a commit's first member: the live sectors of untouched pieces, newest to oldest, without those already reached
// from a listed one.
#![tactic(auto)]

ghost use Rattle.std.specs.Prelude.{◌≡◌, true, false, cond, ◌&&◌, ◌||◌, [], ◌∷◌, ◌++◌, ℕ, suc, ◌+◌, ◌*◌, ◌≤◌, ◌<◌, length, take, eqb, ltb, MatchOption};
ghost use Rattle.geometry.specs.Geometry.{sector_bytes, folding_branches, most_pieces};
ghost use Rattle.layout.specs.Bounded.{at, elem};
ghost use Rattle.layout.specs.Word.{words_of};
ghost use Rattle.layout.specs.MapSector.{valid, branch_words};
ghost use Rattle.volume.specs.Tables.{sector_at, tables_of};
ghost use Rattle.volume.specs.Commit.{older_key, listing};
ghost use Rattle.volume.specs.Calls.{view_of};
ghost use Rattle.pieces.specs.Arrays.{flagged, unflagged, Live};
ghost use Rattle.tournament.specs.Tournament.{tree_length, Keyed};
ghost use Rattle.listing.specs.Listing.{NoneOlder, Taken};

use geometry::Geometry;

// The number of piece q where it is a candidate: untouched and older than bound; otherwise 0, the tournament's key for none.
fn older_key(numbers: &[u32], touched: &[u8], bound: u32, q: usize) -> u32
    requires q_in_bounds { q < length numbers.now }
    requires numbers_in_bounds { length numbers.now ≤ length touched.now }
    ensures { result ≡ older_key (tables_of [] [] numbers.now []) (unflagged (length numbers.now) touched.now) bound q }
{
    let number = numbers[q];
    if touched[q] != 1 && number < bound {
        number
    } else {
        0
    }
}

// Enters every piece with its key, so that the newest candidate is the first of the tournament.
fn enter_all(tree: &mut [u64], numbers: &[u32], touched: &[u8], bound: u32)
    requires tree_len { length tree.old ≡ tree_length }
    requires numbers_len_bound { length numbers.now ≤ most_pieces }
    requires numbers_in_bounds { length numbers.now ≤ length touched.now }
    ensures { Keyed (length numbers.now) (older_key (tables_of [] [] numbers.now []) (unflagged (length numbers.now) touched.now) bound) tree.new }
{
    for q in 0..numbers.len() {
        tournament::enter(
            tree,
            numbers.len(),
            q,
            older_key(numbers, touched, bound, q),
        );
    }
    tournament::play_all(tree, numbers.len());
}

// Lists a place, unless its sector is reached already. How many are listed then.
fn list_place(branches: &mut [u32], count: usize, place: u32, known: bool) -> usize
    requires { count < length branches.old }
    ensures { (result ≡ cond known count (count + 1)) × (take result branches.new ≡ take count branches.old ++ cond known [] (place ∷ [])) × (result ≤ count + 1) }
{
    if known {
        return count;
    }
    branches[count] = place;
    count + 1
}

// A branch to sector b, which says piece p: the live sector there is reached, if it is older than bound.
fn reach(reached: &mut [u8], places: &[u32], numbers: &[u32], p: u32, b: u32, bound: u32)
    requires places_len { length places.now ≡ length numbers.now }
    requires places_in_bounds { length places.now ≤ length reached.old }
    requires by_index { (q : ℕ) → at places.now q ≡ b → (q ≡ p) × (q < length places.now) }
    ensures { flagged reached.new ≡ (λ q. flagged reached.old q || (eqb (at places.now q) b && ltb (at numbers.now q) bound)) }
{
    let q = p as usize;
    if q < places.len() && places[q] == b && numbers[q] < bound {
        reached[q] = 1;
    }
}

// The newest candidate and its number.
#[derive(Clone, Copy)]
struct Newest {
    piece: usize,
    number: u32,
}

// Takes the newest candidate, if one is left. The older ones stay in the tournament.
fn take_newest(tree: &mut [u64], numbers: &[u32], touched: &[u8], bound: u32) -> Option<Newest>
    requires tree_len { length tree.old ≡ tree_length }
    requires numbers_len_bound { length numbers.now ≤ most_pieces }
    requires numbers_in_bounds { length numbers.now ≤ length touched.now }
    requires numbers_nonzero { 0 < length numbers.now }
    requires keyed { Keyed (length numbers.now) (older_key (tables_of [] [] numbers.now []) (unflagged (length numbers.now) touched.now) bound) tree.old }
    ensures { MatchOption result (NoneOlder numbers.now touched.now bound) (λ next. Taken numbers.now touched.now bound tree.new next.piece next.number) }
{
    let piece = tournament::first(tree, numbers.len());
    let number = older_key(numbers, touched, bound, piece);
    if number == 0 {
        return None;
    }
    tournament::keep_below(tree, numbers.len(), number);
    Some(Newest { piece, number })
}

// How many branches a signed sector has: no more than there is room for.
fn branches_at(image: &[u8], g: Geometry, place: u32) -> usize
    requires image_len { length image.now ≡ sector_bytes * g.n }
    requires place_lt_n { place < g.n }
    requires place_value { valid g (sector_at image.now place) (words_of (sector_at image.now place)) ≡ true }
    ensures { (result ≡ at (words_of (sector_at image.now place)) 6) × (result ≤ length (branch_words (words_of (sector_at image.now place)))) }
{
    map_sector::branch_count(images::sector(image, place as usize)) as usize
}

// Branch i of a signed sector: it names a sector.
fn branch_of(image: &[u8], g: Geometry, place: u32, i: usize) -> u32
    requires image_len { length image.now ≡ sector_bytes * g.n }
    requires place_lt_n { place < g.n }
    requires place_value { valid g (sector_at image.now place) (words_of (sector_at image.now place)) ≡ true }
    requires i_bound { i < at (words_of (sector_at image.now place)) 6 }
    ensures { (result ≡ at (branch_words (words_of (sector_at image.now place))) i) × (1 ≤ result) × (result < g.n) }
{
    map_sector::branch_at(images::sector(image, place as usize), i)
}

// The piece that a sector says.
fn piece_at(image: &[u8], g: Geometry, place: u32) -> u32
    requires image_len { length image.now ≡ sector_bytes * g.n }
    requires place_lt_n { place < g.n }
    ensures { result ≡ at (words_of (sector_at image.now place)) 4 }
{
    map_sector::piece_of(images::sector(image, place as usize))
}

// What branch i of a signed sector reaches.
fn reach_branch(
    reached: &mut [u8],
    image: &[u8],
    g: Geometry,
    places: &[u32],
    numbers: &[u32],
    place: u32,
    i: usize,
    bound: u32,
)
    requires image_len { length image.now ≡ sector_bytes * g.n }
    requires places_len { length places.now ≡ length numbers.now }
    requires places_in_bounds { length places.now ≤ length reached.old }
    requires live { Live g (sector_at image.now) (at places.now) (length numbers.now) }
    requires place_lt_n { place < g.n }
    requires place_value { valid g (sector_at image.now place) (words_of (sector_at image.now place)) ≡ true }
    requires i_bound { i < at (words_of (sector_at image.now place)) 6 }
    ensures { flagged reached.new ≡ (λ q. flagged reached.old q || (eqb (at places.now q) (at (branch_words (words_of (sector_at image.now place))) i) && ltb (at numbers.now q) bound)) }
{
    let b = branch_of(image, g, place, i);
    reach(reached, places, numbers, piece_at(image, g, b), b, bound);
}

// What all branches of a signed sector reach.
fn reach_branches(
    reached: &mut [u8],
    image: &[u8],
    g: Geometry,
    places: &[u32],
    numbers: &[u32],
    place: u32,
    bound: u32,
)
    requires image_len { length image.now ≡ sector_bytes * g.n }
    requires places_len { length places.now ≡ length numbers.now }
    requires places_in_bounds { length places.now ≤ length reached.old }
    requires live { Live g (sector_at image.now) (at places.now) (length numbers.now) }
    requires place_lt_n { place < g.n }
    requires place_value { valid g (sector_at image.now place) (words_of (sector_at image.now place)) ≡ true }
    ensures { flagged reached.new ≡ (λ q. flagged reached.old q || (elem (at places.now q) (take (at (words_of (sector_at image.now place)) 6) (branch_words (words_of (sector_at image.now place)))) && ltb (at numbers.now q) bound)) }
{
    for i in 0..branches_at(image, g, place) {
        reach_branch(reached, image, g, places, numbers, place, i, bound);
    }
}

// The branches, once every candidate is entered: the newest is the first, and those not older than bound are struck out.
fn list_newest(
    image: &[u8],
    g: Geometry,
    places: &[u32],
    numbers: &[u32],
    touched: &[u8],
    number: u32,
    tree: &mut [u64],
    branches: &mut [u32],
) -> usize
    requires image_len { length image.now ≡ sector_bytes * g.n }
    requires places_len { length places.now ≡ length numbers.now }
    requires numbers_len_bound { length numbers.now ≤ most_pieces }
    requires numbers_in_bounds { length numbers.now ≤ length touched.now }
    requires number_bound { number + 1 < 4294967296 }
    requires branches_len { length branches.old ≡ folding_branches }
    requires live { Live g (sector_at image.now) (at places.now) (length numbers.now) }
    requires tree_len { length tree.old ≡ tree_length }
    requires keyed { Keyed (length numbers.now) (older_key (tables_of [] [] numbers.now []) (unflagged (length numbers.now) touched.now) (number + 1)) tree.old }
    ensures { take result branches.new ≡ take folding_branches (listing (length numbers.now) (tables_of [] places.now numbers.now []) (view_of g (sector_at image.now)) (unflagged (length numbers.now) touched.now) (length numbers.now) (suc number) (λ _. false)) × (result ≤ folding_branches) }
{
    let mut reached = [0u8; Geometry::MOST_PIECES];
    let mut count = 0;
    let mut bound = number + 1;
    for _step in 0..numbers.len() {
        if count == Geometry::FOLDING_BRANCHES {
            break;
        }
        let Some(next) = take_newest(tree, numbers, touched, bound) else {
            break;
        };
        let place = places[next.piece];
        count = list_place(branches, count, place, reached[next.piece] == 1);
        bound = next.number;
        reach_branches(&mut reached, image, g, places, numbers, place, bound);
    }
    count
}

// The first of the listed branches, no more of them than decide for a fold. How many they are: the array is the caller's, since there
// is no heap.
pub fn list_branches(
    image: &[u8],
    g: Geometry,
    places: &[u32],
    numbers: &[u32],
    touched: &[u8],
    number: u32,
    branches: &mut [u32],
) -> usize
    requires image_len { length image.now ≡ sector_bytes * g.n }
    requires places_len { length places.now ≡ length numbers.now }
    requires numbers_len_bound { length numbers.now ≤ most_pieces }
    requires numbers_in_bounds { length numbers.now ≤ length touched.now }
    requires number_bound { number + 1 < 4294967296 }
    requires branches_len { length branches.old ≡ folding_branches }
    requires live { Live g (sector_at image.now) (at places.now) (length numbers.now) }
    ensures { take result branches.new ≡ take folding_branches (listing (length numbers.now) (tables_of [] places.now numbers.now []) (view_of g (sector_at image.now)) (unflagged (length numbers.now) touched.now) (length numbers.now) (suc number) (λ _. false)) × (result ≤ folding_branches) }
{
    let mut tree = [0u64; tournament::TREE];
    enter_all(&mut tree, numbers, touched, number + 1);
    list_newest(
        image, g, places, numbers, touched, number, &mut tree, branches,
    )
}
