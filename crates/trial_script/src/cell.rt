// The names of a script, and the cells of the board that they stand for.
use reference_board::board;

// The cell of an answer, of the state, of what is lent or of a table.
pub fn cell_of(name: &[u8]) -> Option<u32> {
    match name {
        b"answer" => Some(board::ANSWER),
        b"made" => Some(board::STORES),
        b"skipped" => Some(board::SKIPPED),
        b"way" => Some(board::WAY),
        b"sectors-read" => Some(board::READS),
        b"branches" => Some(board::BRANCH_COUNT),
        _ => state_cell(name),
    }
}

fn state_cell(name: &[u8]) -> Option<u32> {
    match name {
        b"n" => Some(board::STATE_N),
        b"l" => Some(board::STATE_L),
        b"tail" => Some(board::TAIL),
        b"number" => Some(board::NUMBER),
        b"phase" => Some(board::PHASE),
        _ => setting_cell(name),
    }
}

// The settings in the state.
fn setting_cell(name: &[u8]) -> Option<u32> {
    match name {
        b"per-track" => Some(board::PER_TRACK),
        b"tracks" => Some(board::TRACKS),
        b"switch" => Some(board::SWITCH),
        _ => given_cell(name),
    }
}

// What a format or a recover is given.
fn given_cell(name: &[u8]) -> Option<u32> {
    match name {
        b"call-l" => Some(board::BLOCK_COUNT),
        b"call-per-track" => Some(board::GIVEN_PER_TRACK),
        b"call-tracks" => Some(board::GIVEN_TRACKS),
        b"call-switch" => Some(board::GIVEN_SWITCH),
        _ => length_cell(name),
    }
}

// The lengths lent.
fn length_cell(name: &[u8]) -> Option<u32> {
    match name {
        b"image-length" => Some(board::IMAGE_LENGTH),
        b"map-length" => Some(board::MAP_LENGTH),
        b"places-length" => Some(board::PLACES_LENGTH),
        b"numbers-length" => Some(board::NUMBERS_LENGTH),
        b"used-length" => Some(board::USED_LENGTH),
        _ => backlog_cell(name),
    }
}

// What a batch is lent: lengths, and where the words of its commits begin; and how many commits it answered.
fn backlog_cell(name: &[u8]) -> Option<u32> {
    match name {
        b"commits-length" => Some(board::COMMITS_LENGTH),
        b"answers-length" => Some(board::ANSWERS_LENGTH),
        b"backlog-blocks" => Some(board::BACKLOG_COUNT),
        b"backlog-bytes" => Some(board::BACKLOG_BYTES),
        b"commit-word" => Some(board::COMMITS),
        b"answered" => Some(board::COMMITS_ANSWERED),
        _ => table_cell(name),
    }
}

// Where a table begins.
fn table_cell(name: &[u8]) -> Option<u32> {
    match name {
        b"entry" => Some(board::LENT),
        b"place" => Some(board::LENT + board::PLACES),
        b"live-number" => Some(board::LENT + board::NUMBERS),
        b"used" => Some(board::LENT + board::USED),
        b"out" => Some(board::OUT),
        _ => None,
    }
}
