// What turns a call back: 1, 11, then 2 to 7, in order.
use reference_board::kinds::{Phase, Refusal};
use reference_board::{board, consistent, places, valid};

pub fn ensure(holds: bool, refusal: Refusal) -> Result<(), Refusal> {
    if holds { Ok(()) } else { Err(refusal) }
}

fn size_fits(n: u32, l: u32) -> bool {
    1 <= l && l <= 24576 && n <= 65536 && n as u64 >= 2 * board::pieces(l) as u64 + 2
}

// Whether three settings, of the state or given, are those of a drive of n sectors: sectors a track, tracks, head switch.
// Dealt out over the tracks, the sectors leave none over.
fn settings_fit(b: &[u32; board::SIZE], settings: u32, n: u32) -> bool {
    let per_track = board::get(b, settings, 0);
    let tracks = board::get(b, settings, 1);
    per_track <= 65536
        && 1 <= tracks
        && tracks <= 256
        && board::get(b, settings, 2) <= 255
        && n % tracks == 0
        && n / tracks == per_track
}

fn tables_fit(b: &[u32; board::SIZE], n: u32, l: u32) -> bool {
    board::get(b, board::MAP_LENGTH, 0) == l
        && board::get(b, board::PLACES_LENGTH, 0) == board::pieces(l)
        && board::get(b, board::NUMBERS_LENGTH, 0) == board::pieces(l)
        && board::get(b, board::USED_LENGTH, 0) == board::used_bytes(n)
}

// For format and recover: N is what the image's length says.
pub fn of_image(b: &[u32; board::SIZE]) -> Result<(), Refusal> {
    let length = board::get(b, board::IMAGE_LENGTH, 0);
    let n = length / 512;
    let l = board::get(b, board::BLOCK_COUNT, 0);
    ensure(length % 512 == 0 && size_fits(n, l), Refusal::Size)?;
    ensure(
        settings_fit(b, board::GIVEN_PER_TRACK, n),
        Refusal::WrongSettings,
    )?;
    ensure(tables_fit(b, n, l), Refusal::BufferLength)
}

fn has_image(b: &[u32; board::SIZE], n: u32) -> bool {
    board::get(b, board::IMAGE_LENGTH, 0) as u64 == n as u64 * 512
}

// 1, 11 and 2 for the calls that go by the state, but for their own buffers.
pub fn of_tables(b: &[u32; board::SIZE]) -> Result<(), Refusal> {
    let n = board::get(b, board::STATE_N, 0);
    let l = board::get(b, board::STATE_L, 0);
    ensure(size_fits(n, l) && has_image(b, n), Refusal::Size)?;
    ensure(settings_fit(b, board::PER_TRACK, n), Refusal::WrongSettings)?;
    ensure(tables_fit(b, n, l), Refusal::BufferLength)
}

fn of_state(b: &[u32; board::SIZE], bytes: u64) -> Result<(), Refusal> {
    of_tables(b)?;
    ensure(
        board::get(b, board::BYTES_LENGTH, 0) as u64 == bytes,
        Refusal::BufferLength,
    )
}

// Whether the blocks, so many words of the board, ascend and lie below l.
fn blocks_ascend(b: &[u32; board::SIZE], count: u32, l: u32) -> bool {
    (0..count).all(|i| board::get(b, board::BLOCKS, i) < l)
        && (1..count).all(|i| board::get(b, board::BLOCKS, i - 1) < board::get(b, board::BLOCKS, i))
}

fn of_arguments(b: &[u32; board::SIZE], n: u32, l: u32) -> Result<(), Refusal> {
    let count = board::get(b, board::COUNT, 0);
    ensure(
        1 <= count
            && count <= 64
            && blocks_ascend(b, count, l)
            && board::get(b, board::HEAD, 0) < n,
        Refusal::Arguments,
    )
}

// 4 and 5 for the calls that need a running volume.
fn of_volume(b: &mut [u32; board::SIZE], n: u32, l: u32) -> Result<(), Refusal> {
    ensure(board::phase(b) == Phase::Running, Refusal::WrongPhase)?;
    let tail = board::get(b, board::TAIL, 0);
    let number = board::get(b, board::NUMBER, 0);
    let consistent = consistent::is_consistent(b, board::LENT, n, l, tail, number);
    ensure(
        consistent && consistent::all_live(b, n, l),
        Refusal::NotConsistent,
    )
}

// 6 and 7.
fn of_room(b: &[u32; board::SIZE], n: u32, l: u32, writes: bool) -> Result<(), Refusal> {
    ensure(
        !writes || places::has_room(b, n, l, board::get(b, board::COUNT, 0)),
        Refusal::NoRoom,
    )?;
    ensure(
        board::get(b, board::NUMBER, 0) <= 4_294_967_039,
        Refusal::NumbersUsedUp,
    )
}

// The bytes that go with a commit: 512 for each block of a write.
fn bytes_needed(b: &[u32; board::SIZE], writes: bool) -> u64 {
    if writes {
        return board::get(b, board::COUNT, 0) as u64 * 512;
    }
    0
}

pub fn of_commit(b: &mut [u32; board::SIZE], writes: bool) -> Result<(), Refusal> {
    let n = board::get(b, board::STATE_N, 0);
    let l = board::get(b, board::STATE_L, 0);
    of_state(b, bytes_needed(b, writes))?;
    of_arguments(b, n, l)?;
    of_volume(b, n, l)?;
    of_room(b, n, l, writes)
}

pub fn of_park(b: &mut [u32; board::SIZE]) -> Result<(), Refusal> {
    let n = board::get(b, board::STATE_N, 0);
    let l = board::get(b, board::STATE_L, 0);
    of_state(b, 0)?;
    of_volume(b, n, l)
}

pub fn of_read(b: &[u32; board::SIZE]) -> Result<(), Refusal> {
    of_state(b, 512)?;
    let n = board::get(b, board::STATE_N, 0);
    let block = board::get(b, board::BLOCKS, 0);
    ensure(block < board::get(b, board::STATE_L, 0), Refusal::Arguments)?;
    ensure(board::phase(b) != Phase::Cut, Refusal::WrongPhase)?;
    let entry = board::get(b, board::LENT, block);
    ensure(
        entry == 0 || valid::is_place(consistent::sector_of(entry), n),
        Refusal::NotConsistent,
    )
}
