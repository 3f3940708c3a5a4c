// A batch by both implementations, as the other calls.
use lending::Memory;
use paper::tokens;
use reference_board::board;
use state::BatchOutcome;
use trial_board::cells;
use trial_board::difference::Difference;

// Lends the parts of the arrays that have the lengths on the board.
fn lend(
    b: &[u32; board::SIZE],
    m: &mut Memory<'_>,
    commits: &[u32],
    blocks: &[u32],
    bytes: &[u8],
    answers: &mut [u32],
) -> BatchOutcome {
    let w = trial_lent::length(b, board::COMMITS_LENGTH, commits.len());
    let c = trial_lent::length(b, board::BACKLOG_COUNT, blocks.len());
    let d = trial_lent::length(b, board::BACKLOG_BYTES, bytes.len());
    let mut part = Memory {
        image: trial_lent::part_in(m.image, b, board::IMAGE_LENGTH),
        map: trial_lent::part_in(m.map, b, board::MAP_LENGTH),
        places: trial_lent::part_in(m.places, b, board::PLACES_LENGTH),
        numbers: trial_lent::part_in(m.numbers, b, board::NUMBERS_LENGTH),
        used: trial_lent::part_in(m.used, b, board::USED_LENGTH),
    };
    batch::batch(
        trial_lent::state_of(b),
        &mut part,
        tokens::part(commits, 0, w),
        tokens::part(blocks, 0, c),
        tokens::part(bytes, 0, d),
        cells::get(b, board::ALLOWED),
        trial_lent::part_in(answers, b, board::ANSWERS_LENGTH),
    )
}

// Fills the commits, their blocks and their bytes from the board, performs the batch by both implementations, the code on this memory, and
// says what differs between their answers.
fn answer_loaded(
    b: &mut [u32; board::SIZE],
    m: &mut Memory<'_>,
    commits: &mut [u32; trial_lent::COMMIT_WORDS],
    blocks: &mut [u32; trial_lent::BLOCKS],
    bytes: &mut [u8; trial_lent::DATA_BYTES],
    answers: &mut [u32; trial_lent::ANSWER_WORDS],
) -> Result<(), Difference> {
    trial_lent::load_words(commits, b, board::COMMITS, board::COMMITS_MOST * 4);
    trial_lent::load_words(blocks, b, board::BACKLOG_BLOCKS, board::COUNT_MOST);
    trial_lent::load_backlog(bytes, b);
    trial_lent::load_words(answers, b, board::ANSWERS, board::COMMITS_MOST * 5);
    let done = lend(b, m, commits, blocks, bytes, answers);
    reference::backlog::perform(b);
    trial_lent::compare_batches(done, b, answers)
}

// Performs the batch by both implementations, the code on this memory, and says what differs between their answers.
fn answer(b: &mut [u32; board::SIZE], m: &mut Memory<'_>) -> Result<(), Difference> {
    let mut commits = [0u32; trial_lent::COMMIT_WORDS];
    let mut blocks = [0u32; trial_lent::BLOCKS];
    let mut bytes = [0u8; trial_lent::DATA_BYTES];
    let mut answers = [0u32; trial_lent::ANSWER_WORDS];
    answer_loaded(b, m, &mut commits, &mut blocks, &mut bytes, &mut answers)
}

// Fills what is lent from the board, performs the batch by both implementations, and says what differs afterwards. The arrays come from the
// caller: of one that is made where it is lent the check would count the elements.
fn both_loaded(
    b: &mut [u32; board::SIZE],
    image: &mut [u8; trial_lent::IMAGE_BYTES],
    map: &mut [u32; trial_lent::MAP_WORDS],
    places: &mut [u32; trial_lent::PIECES],
    numbers: &mut [u32; trial_lent::PIECES],
    used: &mut [u8; trial_lent::USED_BYTES],
) -> Result<(), Difference> {
    let mut m = Memory {
        image,
        map,
        places,
        numbers,
        used,
    };
    trial_lent::load_volume(&mut m, b);
    answer(b, &mut m)?;
    trial_lent::compare_volumes(b, &m)
}

// Performs the batch that stands on the board by both implementations, and says what differs afterwards.
pub fn both(b: &mut [u32; board::SIZE]) -> Result<(), Difference> {
    let mut image = [0u8; trial_lent::IMAGE_BYTES];
    let mut map = [0u32; trial_lent::MAP_WORDS];
    let mut places = [0u32; trial_lent::PIECES];
    let mut numbers = [0u32; trial_lent::PIECES];
    let mut used = [0u8; trial_lent::USED_BYTES];
    both_loaded(
        b,
        &mut image,
        &mut map,
        &mut places,
        &mut numbers,
        &mut used,
    )
}
