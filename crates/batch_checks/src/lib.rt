// The refusals of a batch as a whole: 1, 11, 2 and 12.
#![tactic(auto)]

ghost use Rattle.std.specs.Prelude.{◌≡◌, cond, ◌+◌, ◌*◌, ◌/◌, ◌<◌, length, eqb, Ok, Err};
ghost use Rattle.geometry.specs.Geometry.{within};
ghost use Rattle.layout.specs.Bounded.{at, sum_below};
ghost use Rattle.answer.specs.declared.Refusal.TheVariants.{CommitCount};
ghost use Rattle.volume.specs.Refusals.{judged};
ghost use Rattle.batches.specs.Batch.{batch_commits, commit_words, answer_words, batch_fits, batch_checks};
ghost use Rattle.checks.specs.Left.{measured};

use answer::Refusal;
use lending::Lengths;
use state::State;

// Words of a commit as it is lent, and of its answer.
pub const COMMIT_WORDS: usize = 4;

pub const ANSWER_WORDS: usize = 5;

// The most commits of a batch.
const MOST_COMMITS: usize = 32;

// Whether the counts that stand at one place of all commits add up to a total. (The sum is not formed: it might not fit.)
fn adds_up(words: &[u32], place: usize, total: usize) -> bool
    requires { place < commit_words }
    ensures { result ≡ eqb (sum_below (λ i. at words.now (commit_words * i + place)) (length words.now / commit_words)) total }
{
    let commits = words.len() / COMMIT_WORDS;
    let mut left = total;
    for i in 0..commits {
        let own = words[COMMIT_WORDS * i + place] as usize;
        if left < own {
            return false;
        }
        left -= own;
    }
    left == 0
}

// So many words answer so many commits. (The product is not formed.)
fn answers_fit(answers: usize, commits: usize) -> bool
    ensures { result ≡ eqb answers (answer_words * commits) }
{
    answers % ANSWER_WORDS == 0 && answers / ANSWER_WORDS == commits
}

// Refusal 2: whole commits, whose counts add up to the block numbers and bytes that are lent, and just the room for their answers.
#[tactic(auto, unfolding(batches::specs::Batch::batch_fits))]
fn buffers_fit(words: &[u32], blocks: usize, bytes: usize, answers: usize) -> bool
    ensures { result ≡ batch_fits words.now blocks bytes answers }
{
    words.len() % COMMIT_WORDS == 0
        && adds_up(words, 2, blocks)
        && adds_up(words, 3, bytes)
        && answers_fit(answers, words.len() / COMMIT_WORDS)
}

// Refusal 12: no commit, or more than 32.
fn count_verdict(commits: usize) -> Result<(), Refusal>
    ensures { result ≡ cond (within 1 batch_commits commits) (Ok tt) (Err CommitCount) }
{
    if !(1..=MOST_COMMITS).contains(&commits) {
        return Err(Refusal::CommitCount);
    }
    Ok(())
}

// The refusals of a batch as a whole, in their order, by the lengths of what is lent.
pub fn batch_verdict(
    s: State,
    lent: Lengths,
    words: &[u32],
    blocks: usize,
    bytes: usize,
    answers: usize,
) -> Result<(), Refusal>
    ensures { result ≡ judged (batch_checks s (measured lent) words.now blocks bytes answers) }
{
    let fit = buffers_fit(words, blocks, bytes, answers);
    checks::state_verdict(s, lent, fit)?;
    count_verdict(words.len() / COMMIT_WORDS)
}
