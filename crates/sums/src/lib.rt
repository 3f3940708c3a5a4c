// The words of a sector, added with wrapping at 2^32.
#![tactic(auto)]

ghost use Rattle.std.specs.Prelude.{◌≡◌, length};
ghost use Rattle.std.proofs.lemmas.List.Edits.{sets};
ghost use Rattle.geometry.specs.Geometry.{sector_bytes};
ghost use Rattle.layout.specs.Word.{word_bytes, words_of, word_sum, balance};

use geometry::Geometry;

// The bound is a constant, so that the compiler adds several words at a time.
pub fn word_sum(s: &[u8]) -> u32
    requires { length s.now ≡ sector_bytes }
    ensures { result ≡ word_sum (words_of s.now) }
{
    let mut sum: u32 = 0;
    for k in 0..Geometry::WORDS {
        sum = sum.wrapping_add(words::word_at(s, k));
    }
    sum
}

// The word that brings a sum to zero.
pub fn balance_of(sum: u32) -> u32
    ensures { result ≡ balance sum }
{
    sum.wrapping_neg()
}

// Stores the balance as word 1 of a sector in which that word is zero.
pub fn put_balance(s: &mut [u8])
    requires { length s.old ≡ sector_bytes }
    ensures { s.new ≡ sets s.old 4 (word_bytes (balance (word_sum (words_of s.old)))) }
{
    let sum = word_sum(s);
    words::put_word(s, 1, balance_of(sum));
}
