// Live numbers, and the tail among them.
#![tactic(auto)]

ghost use Rattle.std.specs.Prelude.{◌≡◌, true, ◌&&◌, ◌||◌, [], ◌<◌, length, eqb, leb};
ghost use Rattle.layout.specs.Bounded.{at, all_below, best, elem, distinct, always, gathered};

// Fewer numbers than so many are compared in pairs sooner than the map of the residues is cleared.
const FEW: usize = 64;

// The residues, by which most numbers of a log differ.
const RESIDUES: u32 = 65_536;

// Whether number i stands below i already. All are looked at, so that the compiler compares several at a time.
fn stands_before(numbers: &[u32], i: usize) -> bool
    requires { i < length numbers.now }
    ensures { result ≡ elem (at numbers.now i) (gathered always (at numbers.now) [] i) }
{
    let number = numbers[i];
    let mut found = false;
    for other in &numbers[..i] {
        found |= number == *other;
    }
    found
}

// Each number against those before it: at most P x P / 2 steps.
fn pairs_distinct(numbers: &[u32]) -> bool
    ensures { result ≡ distinct (gathered always (at numbers.now) [] (length numbers.now)) }
{
    for i in 0..numbers.len() {
        if stands_before(numbers, i) {
            return false;
        }
    }
    true
}

// Whether no two numbers have the same residue: then they are distinct.
fn residues_distinct(numbers: &[u32]) -> bool
    ensures { result ≡ true → distinct (gathered always (at numbers.now) [] (length numbers.now)) ≡ true }
{
    let mut seen = [0u8; RESIDUES as usize / 8];
    for number in numbers {
        let residue = (*number % RESIDUES) as usize;
        if bits::is_set(&seen, residue) {
            return false;
        }
        bits::set_bit(&mut seen, residue);
    }
    true
}

// By residues first, unless they are few.
fn all_distinct(numbers: &[u32]) -> bool
    ensures { result ≡ distinct (gathered always (at numbers.now) [] (length numbers.now)) }
{
    if numbers.len() < FEW {
        return pairs_distinct(numbers);
    }
    if residues_distinct(numbers) {
        return true;
    }
    pairs_distinct(numbers)
}

fn all_from_1(numbers: &[u32]) -> bool
    ensures { result ≡ all_below (λ q. leb 1 (at numbers.now q)) (length numbers.now) }
{
    numbers.iter().all(|number| *number >= 1)
}

// The index of the greatest number, of equal ones the lowest.
fn newest(numbers: &[u32]) -> usize
    requires { 0 < length numbers.now }
    ensures { result ≡ best (at numbers.now) (length numbers.now) }
{
    let mut found = 0;
    for (i, number) in numbers.iter().enumerate() {
        if numbers[found] < *number {
            found = i;
        }
    }
    found
}

// Live numbers are distinct and from 1, and the tail is the place with the greatest.
pub fn numbers_agree(places: &[u32], numbers: &[u32], tail: u32, number: u32) -> bool
    requires numbers_nonzero { 0 < length numbers.now }
    requires places_len { length places.now ≡ length numbers.now }
    ensures { result ≡ (distinct (gathered always (at numbers.now) [] (length numbers.now)) && all_below (λ q. leb 1 (at numbers.now q)) (length numbers.now) && eqb tail (at places.now (best (at numbers.now) (length numbers.now))) && eqb number (at numbers.now (best (at numbers.now) (length numbers.now)))) }
{
    if !all_distinct(numbers) {
        return false;
    }
    if !all_from_1(numbers) {
        return false;
    }
    let q = newest(numbers);
    if tail != places[q] {
        return false;
    }
    number == numbers[q]
}
