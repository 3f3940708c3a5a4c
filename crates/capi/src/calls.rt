// The calls, exported. Each has the promise of the call it makes, in numbers.
ghost use Rattle.std.specs.Prelude.{◌≡◌};
ghost use Rattle.volume.specs.Tables.{memory};
ghost use Rattle.volume.specs.Format.{format_of};
ghost use Rattle.volume.specs.Calls.{write_of, drop_of, read_of, park_of};
ghost use Rattle.volume.specs.Recover.{recover_of};
ghost use Rattle.batches.specs.Batch.{batch_of};
ghost use Rattle.plain.specs.Plain.{state_of, settings_in};
ghost use Rattle.capi.specs.Handed.{handed, in_numbers, read_handed, read_in_numbers, batch_handed, batch_in_numbers};

use lending::{Memory, Tables};
use plain::{CBatchResult, CResult, CSettings, CState};

// Makes an empty volume in the image, of what is given.
#[unsafe(no_mangle)]
pub extern "C" fn vlog_format(
    c: CState,
    image: &mut [u8],
    map: &mut [u32],
    places: &mut [u32],
    numbers: &mut [u32],
    used: &mut [u8],
    given: CSettings,
    allowance: u32,
) -> CResult
    ensures { handed result (memory image.new map.new places.new numbers.new used.new) ≡ in_numbers c (format_of (state_of c) (memory image.old map.old places.old numbers.old used.old) (settings_in given) allowance) }
{
    let s = plain::state_of(c);
    let settings = plain::settings_of(given);
    let mut m = Memory {
        image,
        map,
        places,
        numbers,
        used,
    };
    let o = format::format(s, &mut m, settings, allowance);
    plain::result_of(c, o)
}

// Writes the named blocks.
#[unsafe(no_mangle)]
pub extern "C" fn vlog_write(
    c: CState,
    image: &mut [u8],
    map: &mut [u32],
    places: &mut [u32],
    numbers: &mut [u32],
    used: &mut [u8],
    head: u32,
    blocks: &[u32],
    bytes: &[u8],
    allowance: u32,
) -> CResult
    ensures { handed result (memory image.new map.new places.new numbers.new used.new) ≡ in_numbers c (write_of (state_of c) (memory image.old map.old places.old numbers.old used.old) head blocks.now bytes.now allowance) }
{
    let s = plain::state_of(c);
    let mut m = Memory {
        image,
        map,
        places,
        numbers,
        used,
    };
    let o = write::write(s, &mut m, head, blocks, bytes, allowance);
    plain::result_of(c, o)
}

// Drops the named blocks.
#[unsafe(no_mangle)]
pub extern "C" fn vlog_drop(
    c: CState,
    image: &mut [u8],
    map: &mut [u32],
    places: &mut [u32],
    numbers: &mut [u32],
    used: &mut [u8],
    head: u32,
    blocks: &[u32],
    allowance: u32,
) -> CResult
    ensures { handed result (memory image.new map.new places.new numbers.new used.new) ≡ in_numbers c (drop_of (state_of c) (memory image.old map.old places.old numbers.old used.old) head blocks.now allowance) }
{
    let s = plain::state_of(c);
    let mut m = Memory {
        image,
        map,
        places,
        numbers,
        used,
    };
    let o = write::drop(s, &mut m, head, blocks, allowance);
    plain::result_of(c, o)
}

// Fills out with a block.
#[unsafe(no_mangle)]
pub extern "C" fn vlog_read(
    c: CState,
    image: &[u8],
    map: &[u32],
    places: &[u32],
    numbers: &[u32],
    used: &[u8],
    block: u32,
    out: &mut [u8],
) -> CResult
    ensures { read_handed result (memory image.now map.now places.now numbers.now used.now) out.new ≡ read_in_numbers c (read_of (state_of c) (memory image.now map.now places.now numbers.now used.now) block out.old) }
{
    let s = plain::state_of(c);
    let lent = Tables {
        map,
        places,
        numbers,
        used,
    };
    let o = read::read(s, image, &lent, block, out);
    plain::result_of(c, o)
}

// Stores the park record.
#[unsafe(no_mangle)]
pub extern "C" fn vlog_park(
    c: CState,
    image: &mut [u8],
    map: &[u32],
    places: &[u32],
    numbers: &[u32],
    used: &[u8],
    allowance: u32,
) -> CResult
    ensures { handed result (memory image.new map.now places.now numbers.now used.now) ≡ in_numbers c (park_of (state_of c) (memory image.old map.now places.now numbers.now used.now) allowance) }
{
    let s = plain::state_of(c);
    let lent = Tables {
        map,
        places,
        numbers,
        used,
    };
    let o = park::park(s, image, &lent, allowance);
    plain::result_of(c, o)
}

// Finds the log of a volume in the image.
#[unsafe(no_mangle)]
pub extern "C" fn vlog_recover(
    c: CState,
    image: &mut [u8],
    map: &mut [u32],
    places: &mut [u32],
    numbers: &mut [u32],
    used: &mut [u8],
    given: CSettings,
    allowance: u32,
) -> CResult
    ensures { handed result (memory image.new map.new places.new numbers.new used.new) ≡ in_numbers c (recover_of (state_of c) (memory image.old map.old places.old numbers.old used.old) (settings_in given) allowance) }
{
    let s = plain::state_of(c);
    let settings = plain::settings_of(given);
    let mut m = Memory {
        image,
        map,
        places,
        numbers,
        used,
    };
    let o = recover::recover(s, &mut m, settings, allowance);
    plain::result_of(c, o)
}

// Makes up to 32 commits, one after the other.
#[unsafe(no_mangle)]
pub extern "C" fn vlog_batch(
    c: CState,
    image: &mut [u8],
    map: &mut [u32],
    places: &mut [u32],
    numbers: &mut [u32],
    used: &mut [u8],
    commits: &[u32],
    blocks: &[u32],
    bytes: &[u8],
    allowance: u32,
    answers: &mut [u32],
) -> CBatchResult
    ensures { batch_handed result (memory image.new map.new places.new numbers.new used.new) answers.new ≡ batch_in_numbers c (batch_of (state_of c) (memory image.old map.old places.old numbers.old used.old) commits.now blocks.now bytes.now allowance answers.old) }
{
    let s = plain::state_of(c);
    let mut m = Memory {
        image,
        map,
        places,
        numbers,
        used,
    };
    let o = batch::batch(s, &mut m, commits, blocks, bytes, allowance, answers);
    plain::batch_result_of(c, o)
}
