// One line a family: what was run, how often, and the first difference if there is one.
#![tactic(auto)]

use paper::tokens;
use reference_board::board;
use reference_board::kinds::Call;
use std::io::Print;
use trial_board::cells;
use trial_board::difference::Difference;
use trial_board::stand::Volume;
use trial_script::form::{BadLine, Kind, Wrong};
use wording::say;

fn name_of(call: Call) -> &'static [u8] {
    match call {
        Call::Format => b"a format",
        Call::Write => b"a write",
        Call::Drop => b"a drop",
        Call::Read => b"a read",
        Call::Park => b"a park",
        Call::Recover => b"a recover",
        Call::Batch => b"a batch",
    }
}

fn text_of(what: Difference) -> &'static [u8] {
    match what {
        Difference::Answers => b"the answers differ",
        Difference::Stores => b"the counts of stores differ",
        Difference::Ways => b"the ways differ",
        Difference::SectorsRead => b"the sectors read differ",
        Difference::States => b"the states differ",
        Difference::Images => b"the images differ",
        Difference::Maps => b"the maps differ",
        Difference::Places => b"the live places differ",
        Difference::Numbers => b"the live numbers differ",
        Difference::UsedMaps => b"the used maps differ",
        Difference::BytesRead => b"the bytes read differ",
        Difference::Skipped => b"the sectors skipped differ",
        Difference::PlainDisk => b"a block is not the plain disk's",
        Difference::CutAnswer => b"a cut call did not make its stores and answer 10",
        Difference::NotRecovered => b"a recovery was not accepted",
        Difference::CommitsAnswered => b"the counts of commits answered differ",
        Difference::CommitAnswers => b"the answers to the commits of a batch differ",
        Difference::Sample => {
            b"a fact of the script does not hold, or a line is not of a known form"
        }
    }
}

fn say_first(rt: &impl Print, b: &[u32; board::SIZE]) {
    if cells::get(b, cells::DIFFERENCES) == 0 {
        return;
    }
    say::say(rt, b"; the first: ");
    say::say(rt, text_of(Difference::from(cells::get(b, cells::FIRST))));
    say::say(rt, b", in or after ");
    say::say(rt, name_of(Call::from(cells::get(b, cells::FIRST_CALL))));
    say::say_count(rt, b", call ", cells::get(b, cells::FIRST_AT));
    if cells::get(b, cells::FIRST_LINE) > 0 {
        say::say_count(rt, b", line ", cells::get(b, cells::FIRST_LINE));
    }
}

fn say_differences(rt: &impl Print, b: &[u32; board::SIZE]) {
    say::say_count(rt, b"; ", cells::get(b, cells::DIFFERENCES));
    say::say(rt, b" differences");
    say_first(rt, b);
    say::say(rt, b"\n");
}

fn say_answered(rt: &impl Print, b: &[u32; board::SIZE], counts: u32, number: u32) {
    let count = board::get(b, counts, number);
    if count > 0 {
        say::say_count(rt, b", ", number);
        say::say_count(rt, b" x ", count);
    }
}

// How often each number below `most` was answered. (The counts lie on the board, from a cell on.)
fn say_numbers(rt: &impl Print, b: &[u32; board::SIZE], counts: u32, most: u32) {
    say::say_count(rt, b" 0 x ", cells::get(b, counts));
    for number in 1..most {
        say_answered(rt, b, counts, number);
    }
}

// The batches, and what their commits were answered.
fn say_batches(rt: &impl Print, b: &[u32; board::SIZE]) {
    let batches = cells::get(b, cells::BATCHES);
    if batches > 0 {
        say::say_count(rt, b"; ", batches);
        say::say(rt, b" batches, their commits answered");
        say_numbers(rt, b, cells::COMMITS_ANSWERED, 13);
        say::say(rt, b", those after others");
        say_numbers(rt, b, cells::LATER_ANSWERED, 13);
    }
}

fn say_answers(rt: &impl Print, b: &[u32; board::SIZE]) {
    say::say(rt, b" calls, answered");
    say_numbers(rt, b, cells::ANSWERED, 18);
    say_batches(rt, b);
}

// How many of something.
fn say_some(rt: &impl Print, b: &[u32; board::SIZE], cell: u32, what: &[u8]) {
    say::say_count(rt, b", ", cells::get(b, cell));
    say::say(rt, what);
}

pub fn say_script(rt: &impl Print, b: &[u32; board::SIZE]) {
    say::say_count(
        rt,
        b"script of the samples and refusals: ",
        cells::get(b, cells::CALLS),
    );
    say_answers(rt, b);
    say::say_count(rt, b"; ", cells::get(b, cells::FACTS));
    say::say(rt, b" facts");
    say_some(rt, b, cells::BLOCKS_READ, b" blocks as on the plain disk");
    say_differences(rt, b);
}

// The start of what was found, where it is long.
fn shortened(text: &[u8]) -> &[u8] {
    if text.len() > 40 {
        return tokens::part(text, 0, 40);
    }
    text
}

// The word that stands as word i, which is counted from 0 here and from 1 for people.
fn say_found(rt: &impl Print, word: &[u8], i: u32) {
    say::say(rt, b", found \"");
    say::say(rt, shortened(word));
    say::say_count(rt, b"\" as word ", board::plus(i, 1));
}

fn say_first_words(rt: &impl Print) {
    say::say(
        rt,
        b"volume, drive, block, blocks, stores, bytes-more, commit, commits, format, write, drop, read, park, recover, batch",
    );
    say::say(
        rt,
        b", is, answers, untouched, sector, blank, shows, rejects, set, put, balance or copy",
    );
}

fn say_wrong(rt: &impl Print, word: &[u8], kind: Kind, wrong: Wrong) {
    say::say(rt, kind.text());
    match wrong {
        Wrong::Name(i) => {
            say::say(rt, b", the NAME a known one");
            say_found(rt, word, i);
        }
        Wrong::Number(i) => {
            say::say(rt, b", with numbers up to 4294967295");
            say_found(rt, word, i);
        }
        Wrong::Missing => say::say(rt, b", found the end of the line"),
        Wrong::TooMany(i) => {
            say::say(rt, b" and no more");
            say_found(rt, word, i);
        }
    }
}

fn say_bad(rt: &impl Print, word: &[u8], bad: BadLine) {
    match bad {
        BadLine::FirstWord => {
            say_first_words(rt);
            say_found(rt, word, 0);
        }
        BadLine::Form(kind, wrong) => say_wrong(rt, word, kind, wrong),
    }
}

// A line that is not of a known form: what was expected, and the word that stands there.
pub fn say_bad_line(rt: &impl Print, number: u32, word: &[u8], bad: BadLine) {
    say::say_count(rt, b"line ", number);
    say::say(rt, b": expected ");
    say_bad(rt, word, bad);
    say::say(rt, b"\n");
}

// A script that is not read whole.
pub fn say_too_long(rt: &impl Print, most: u32) {
    say::say_count(rt, b"expected a script of at most ", most);
    say::say(
        rt,
        b" bytes, found a longer one: none of its lines is carried out\n",
    );
}

// The drive, where it has more than one track.
fn say_drive(rt: &impl Print, volume: Volume) {
    if volume.tracks > 1 {
        say::say_count(rt, b", ", volume.tracks);
        say::say_count(rt, b" tracks of ", volume.per_track());
        say::say_count(rt, b", switch ", volume.switch);
    }
}

fn say_volume(rt: &impl Print, family: &[u8], volume: Volume) {
    say::say(rt, family);
    say::say_count(rt, b", L ", volume.l);
    say::say_count(rt, b", N ", volume.n);
    say_drive(rt, volume);
}

pub fn say_history(rt: &impl Print, b: &[u32; board::SIZE], family: &[u8], volume: Volume) {
    say_volume(rt, family, volume);
    say::say_count(rt, b": ", cells::get(b, cells::CALLS));
    say_answers(rt, b);
    say::say_count(rt, b"; ", cells::get(b, cells::CUTS));
    say::say(rt, b" power cuts");
    say_some(rt, b, cells::RECOVERY_CUTS, b" in recoveries");
    say_some(rt, b, cells::FOLD_CUTS, b" in folds; walks ");
    say_kinds(rt, b);
    say_differences(rt, b);
}

// Commits on several tracks that leave the head's.
fn say_switches(rt: &impl Print, b: &[u32; board::SIZE]) {
    let switches = cells::get(b, cells::SWITCHES);
    if switches > 0 {
        say::say_count(rt, b", that change tracks ", switches);
    }
}

fn say_kinds(rt: &impl Print, b: &[u32; board::SIZE]) {
    say::say_number(rt, cells::get(b, cells::WALKS));
    say::say_count(rt, b", folds ", cells::get(b, cells::FOLDS));
    say::say_count(rt, b", commits that wrap ", cells::get(b, cells::WRAPS));
    say_switches(rt, b);
    say_some(rt, b, cells::BLOCKS_READ, b" blocks as on the plain disk");
}

pub fn say_damage(rt: &impl Print, b: &[u32; board::SIZE], family: &[u8], volume: Volume) {
    say_volume(rt, family, volume);
    say::say_count(rt, b": ", cells::get(b, cells::CALLS));
    say_answers(rt, b);
    say::say_count(rt, b"; ", cells::get(b, cells::WALKS));
    say::say(rt, b" walks");
    say_differences(rt, b);
}
