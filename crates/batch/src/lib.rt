// A batch: commits made one after the other in one call, up to and including the first that is turned back.
#![tactic(auto)]

ghost use Rattle.std.specs.Prelude.{◌≡◌, ℕ, ◌++◌, ◌+◌, ◌*◌, ◌^◌, ◌≤◌, ◌<◌, length, take, drop, ltb, Ok};
ghost use Rattle.layout.specs.Bounded.{at, sum_below};
ghost use Rattle.lending.specs.Lending.{held, SameLent};
ghost use Rattle.volume.specs.Rules.{base};
ghost use Rattle.volume.specs.Store.{after};
ghost use Rattle.verdict.specs.Known.{KnownAgreed};
ghost use Rattle.batches.specs.Batch.{batch_commits, commit_words, answer_words, blocks_of, bytes_of, commit_at, answer_of, commit_made, commits_in, commits_made, batch_done, batch_of};
ghost use Rattle.batch.specs.Batch.{batch_left, Lent};

use answer::{Answer, Cost, Refusal};
use batch_checks::{ANSWER_WORDS, COMMIT_WORDS};
use lending::Memory;
use state::{BatchOutcome, Outcome, State};

// One commit by its kind: 0 a write, 1 a drop, which has no bytes. The tables are not looked at where they are known to agree with
// the image.
fn make_commit(
    s: State,
    m: &mut Memory<'_>,
    kind: u32,
    head: u32,
    blocks: &[u32],
    bytes: &[u8],
    allowance: u32,
    known: bool,
) -> Outcome
    requires { KnownAgreed known s (held m.old) }
    ensures lent { SameLent m.new m.old }
    ensures value { after result (held m.new) ≡ commit_made base s (held m.old) (record { kind = kind; head = head; blocks = blocks.now; bytes = bytes.now }) allowance }
{
    match kind {
        0 => write::write_commit(s, m, head, blocks, bytes, allowance, known),
        1 => {
            let fit = bytes.is_empty();
            write::drop_commit(s, m, head, blocks, fit, allowance, known)
        }
        _ => Outcome {
            answer: Answer::Refused(Refusal::BlockNumbers),
            state: s,
        },
    }
}

// The words that answer the i-th commit.
fn put_answer(answers: &mut [u32], i: usize, o: Outcome)
    requires { answer_words * i + answer_words ≤ length answers.old }
    ensures { answers.new ≡ take (answer_words * i) answers.old ++ (answer_of o ++ drop (answer_words * i + answer_words) answers.old) }
{
    let at = ANSWER_WORDS * i;
    let given = o.answer;
    let state = o.state;
    answers[at] = given.number();
    answers[at + 1] = given.stores();
    answers[at + 2] = given.skipped();
    answers[at + 3] = state.tail;
    answers[at + 4] = state.number;
}

// Makes the i-th commit and answers it. The block numbers and the bytes of those before it end at block and byte. What the first
// commit found of the tables, each accepted one keeps.
fn answer_commit(
    s: State,
    m: &mut Memory<'_>,
    words: &[u32],
    blocks: &[u32],
    bytes: &[u8],
    i: usize,
    block: usize,
    byte: usize,
    allowance: u32,
    answers: &mut [u32],
) -> Outcome
    requires commit_words_in_bounds { commit_words * i + commit_words ≤ length words.now }
    requires block_value { block ≡ sum_below (blocks_of words.now) i }
    requires byte_value { byte ≡ sum_below (bytes_of words.now) i }
    requires i_in_bounds { block + blocks_of words.now i ≤ length blocks.now }
    requires i_in_bounds_2 { byte + bytes_of words.now i ≤ length bytes.now }
    requires answer_words_in_bounds { answer_words * i + answer_words ≤ length answers.old }
    requires known_agreed { KnownAgreed (ltb 0 i) s (held m.old) }
    ensures lent { SameLent m.new m.old }
    ensures value { (after result (held m.new) ≡ commit_made base s (held m.old) (commit_at words.now blocks.now bytes.now i) allowance) × (answers.new ≡ take (answer_words * i) answers.old ++ (answer_of result ++ drop (answer_words * i + answer_words) answers.old)) }
{
    let at = COMMIT_WORDS * i;
    let blocks_end = block + words[at + 2] as usize;
    let bytes_end = byte + words[at + 3] as usize;
    let o = make_commit(
        s,
        m,
        words[at],
        words[at + 1],
        &blocks[block..blocks_end],
        &bytes[byte..bytes_end],
        allowance,
        0 < i,
    );
    put_answer(answers, i, o);
    o
}

// What a batch hands back that was not refused as a whole.
fn answered(s: State, commits: usize, stores: u32, skipped: u32) -> BatchOutcome
    requires { commits ≤ batch_commits }
    ensures { result ≡ record { verdict = Ok tt; answered = commits; cost = record { stores = stores; skipped = skipped }; state = s } }
{
    BatchOutcome {
        verdict: Ok(()),
        answered: commits as u32,
        cost: Cost { stores, skipped },
        state: s,
    }
}

// Says of entries that are lent in a struct what their type says: each is a word of 32 bits. It does nothing.
fn entries_fit(map: &[u32])
    ensures { (b : ℕ) → at map.now b < 2 ^ 32 }
{}

// Makes the commits, each with what is left of the allowance.
fn make_commits(
    s: State,
    m: &mut Memory<'_>,
    words: &[u32],
    blocks: &[u32],
    bytes: &[u8],
    allowance: u32,
    answers: &mut [u32],
) -> BatchOutcome
    requires { Lent words.now (length blocks.now) (length bytes.now) (length answers.old) }
    ensures lent { SameLent m.new m.old }
    ensures value { batch_left result (held m.new) answers.new ≡ batch_done (commits_made base s (held m.old) (commits_in words.now blocks.now bytes.now) allowance) answers.old }
{
    let commits = words.len() / COMMIT_WORDS;
    let mut state = s;
    let mut left = allowance;
    let mut skipped = 0;
    let mut block = 0;
    let mut byte = 0;
    for i in 0..commits {
        let map = &mut *m.map;
        entries_fit(map);
        let o = answer_commit(
            state, m, words, blocks, bytes, i, block, byte, left, answers,
        );
        let given = o.answer;
        state = o.state;
        left -= given.stores();
        skipped += given.skipped();
        block += words[COMMIT_WORDS * i + 2] as usize;
        byte += words[COMMIT_WORDS * i + 3] as usize;
        if given.number() != 0 {
            return answered(state, i + 1, allowance - left, skipped);
        }
    }
    answered(state, commits, allowance - left, skipped)
}

// Makes 1 to 32 commits, writes and drops, each with its own head. Of each commit words has its kind, its head, and how many of the
// block numbers and of the bytes are its own; each that is answered gets five words of answers.
pub fn batch(
    s: State,
    m: &mut Memory<'_>,
    words: &[u32],
    blocks: &[u32],
    bytes: &[u8],
    allowance: u32,
    answers: &mut [u32],
) -> BatchOutcome
    ensures lent { SameLent m.new m.old }
    ensures value { batch_left result (held m.new) answers.new ≡ batch_of s (held m.old) words.now blocks.now bytes.now allowance answers.old }
{
    let verdict = batch_checks::batch_verdict(
        s,
        m.lengths(),
        words,
        blocks.len(),
        bytes.len(),
        answers.len(),
    );
    match verdict {
        Err(refusal) => BatchOutcome {
            verdict: Err(refusal),
            answered: 0,
            cost: Cost::stores_alone(0),
            state: s,
        },
        Ok(()) => make_commits(s, m, words, blocks, bytes, allowance, answers),
    }
}
