// Filling a table.
#![tactic(auto)]

ghost use Rattle.std.specs.Prelude.{◌≡◌, ◌++◌, suc, ◌+◌, ◌≤◌, length, take, drop};
ghost use Rattle.geometry.specs.Geometry.{most_pieces};
ghost use Rattle.layout.specs.Bounded.{list_from};

// 1, 2, 3 and so on.
pub fn count_up(words: &mut [u32])
    requires { length words.old ≤ most_pieces }
    ensures { words.new ≡ list_from suc 0 (length words.old) }
{
    for (i, word) in words.iter_mut().enumerate() {
        *word = i as u32 + 1;
    }
}

// The first so many words of another one. The rest stays.
pub fn copy_words(words: &mut [u32], from: &[u32], count: usize)
    requires count_in_bounds { count ≤ length words.old }
    requires count_in_bounds_2 { count ≤ length from.now }
    ensures { words.new ≡ take count from.now ++ drop count words.old }
{
    words[..count].copy_from_slice(&from[..count]);
}
