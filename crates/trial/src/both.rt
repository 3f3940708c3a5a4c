// A call by both implementations: the code is lent what stands on the board, and what it leaves is compared.
use crate::both_batches;
use lending::Memory;
use paper::tokens;
use reference_board::board;
use reference_board::kinds::Call;
use state::Outcome;
use storing_calls::Storing;
use trial_board::cells;
use trial_board::difference::Difference;

// The storing call of a call that is no read and no batch.
fn storing(call: Call) -> Storing {
    match call {
        Call::Format => Storing::Format,
        Call::Write => Storing::Write,
        Call::Drop => Storing::Drop,
        Call::Park => Storing::Park,
        Call::Recover | Call::Read | Call::Batch => Storing::Recover,
    }
}

// The call that stands on the board.
fn call(b: &[u32; board::SIZE], m: &mut Memory<'_>, blocks: &[u32], bytes: &mut [u8]) -> Outcome {
    let s = trial_lent::state_of(b);
    match board::call(b) {
        Call::Read => read::read(
            s,
            m.image(),
            &m.tables(),
            cells::get(b, board::BLOCKS),
            bytes,
        ),
        other => storing_calls::perform(
            storing(other),
            s,
            m,
            trial_lent::settings_of(b),
            cells::get(b, board::HEAD),
            blocks,
            bytes,
            cells::get(b, board::ALLOWED),
        ),
    }
}

// Lends the parts of the arrays that have the lengths on the board.
fn lend(b: &[u32; board::SIZE], m: &mut Memory<'_>, blocks: &[u32], bytes: &mut [u8]) -> Outcome {
    let c = trial_lent::length(b, board::COUNT, blocks.len());
    let mut part = Memory {
        image: trial_lent::part_in(&mut *m.image, b, board::IMAGE_LENGTH),
        map: trial_lent::part_in(&mut *m.map, b, board::MAP_LENGTH),
        places: trial_lent::part_in(&mut *m.places, b, board::PLACES_LENGTH),
        numbers: trial_lent::part_in(&mut *m.numbers, b, board::NUMBERS_LENGTH),
        used: trial_lent::part_in(&mut *m.used, b, board::USED_LENGTH),
    };
    call(
        b,
        &mut part,
        tokens::part(blocks, 0, c),
        trial_lent::part_in(bytes, b, board::BYTES_LENGTH),
    )
}

// Fills what is lent from the board, performs the call that stands there by both implementations, and says what differs afterwards. The
// arrays come from the caller: of one that is made where it is lent the check would count the elements.
fn single_loaded(
    b: &mut [u32; board::SIZE],
    image: &mut [u8; trial_lent::IMAGE_BYTES],
    map: &mut [u32; trial_lent::MAP_WORDS],
    places: &mut [u32; trial_lent::PIECES],
    numbers: &mut [u32; trial_lent::PIECES],
    used: &mut [u8; trial_lent::USED_BYTES],
    blocks: &mut [u32; trial_lent::BLOCKS],
    bytes: &mut [u8; trial_lent::DATA_BYTES],
) -> Result<(), Difference> {
    let mut m = Memory {
        image,
        map,
        places,
        numbers,
        used,
    };
    trial_lent::load_volume(&mut m, b);
    trial_lent::load_words(blocks, b, board::BLOCKS, board::COUNT_MOST);
    trial_lent::load_data(bytes, b);
    let done = lend(b, &mut m, blocks, bytes);
    reference::calls::perform(b);
    trial_lent::compare_answers(done, b)?;
    trial_lent::compare_memory(b, &m, bytes)
}

fn single(b: &mut [u32; board::SIZE]) -> Result<(), Difference> {
    let mut image = [0u8; trial_lent::IMAGE_BYTES];
    let mut map = [0u32; trial_lent::MAP_WORDS];
    let mut places = [0u32; trial_lent::PIECES];
    let mut numbers = [0u32; trial_lent::PIECES];
    let mut used = [0u8; trial_lent::USED_BYTES];
    let mut blocks = [0u32; trial_lent::BLOCKS];
    let mut bytes = [0u8; trial_lent::DATA_BYTES];
    single_loaded(
        b,
        &mut image,
        &mut map,
        &mut places,
        &mut numbers,
        &mut used,
        &mut blocks,
        &mut bytes,
    )
}

// Performs the call that stands on the board by both implementations, and says what differs afterwards.
pub fn both(b: &mut [u32; board::SIZE]) -> Result<(), Difference> {
    if board::call(b) == Call::Batch {
        return both_batches::both(b);
    }
    single(b)
}
