// Answers, printed by the handle that the caller lends. What cannot be written is left out.
use answer::{Answer, Loss, Refusal};
use paper::request::Call;
use paper::trouble::{Fault, Trouble};
use paper::{data, tokens};
use state::State;
use std::io::Print;

pub fn say(rt: &impl Print, text: &[u8]) {
    let _ = rt.write_all(text);
}

pub fn say_number(rt: &impl Print, n: u32) {
    let _ = rt.print(n);
}

// A label, and a number after it.
pub fn say_count(rt: &impl Print, label: &[u8], n: u32) {
    say(rt, label);
    say_number(rt, n);
}

fn say_all_hex(rt: &impl Print, text: &[u8]) {
    say(rt, b"x");
    for b in text {
        let _ = print!(rt; "{b:02x}");
    }
}

// The length of a block without its trailing zeros.
fn shown_length(block: &[u8]) -> usize {
    block
        .iter()
        .rposition(|b| *b != 0)
        .map_or(0, |last| last + 1)
}

// A block without its trailing zeros: as text where it is plain, otherwise in hexadecimal.
pub fn say_block(rt: &impl Print, block: &[u8]) {
    let text = tokens::part(block, 0, shown_length(block));
    if text.is_empty() {
        say(rt, b"zeros");
        return;
    }
    if data::all_plain(text) {
        say(rt, b"\"");
        say(rt, text);
        say(rt, b"\"");
        return;
    }
    say_all_hex(rt, text);
}

// The words for what a call is turned back with. These types and calls are of other crates, so that no Display can be given to them here.
fn refusal_words(refusal: Refusal) -> &'static [u8] {
    match refusal {
        Refusal::Size => b"size",
        Refusal::WrongSettings => b"settings",
        Refusal::BufferLength => b"buffer length",
        Refusal::CommitCount => b"commits",
        Refusal::BlockNumbers => b"blocks or head",
        Refusal::WrongPhase => b"phase",
        Refusal::Inconsistent => b"tables",
        Refusal::NoRoom => b"no room",
        Refusal::NumbersUsedUp => b"numbers used up",
    }
}

fn loss_words(loss: Loss) -> &'static [u8] {
    match loss {
        Loss::NoLog => b"no log",
        Loss::DamagedLog => b"damaged log",
    }
}

// A write or a drop: the calls that search for free sectors.
fn is_commit(call: Call) -> bool {
    matches!(call, Call::Write | Call::Drop)
}

fn say_cost(rt: &impl Print, call: Call, answer: Answer) {
    say_count(rt, b"; stores ", answer.stores());
    if is_commit(call) {
        say_count(rt, b"; skipped ", answer.skipped());
    }
}

fn power_words(rt: &impl Print, call: Call, answer: Answer) {
    say(rt, b"power");
    say_cost(rt, call, answer);
}

// Why a call was turned back. An accepted one has no words here.
fn answer_words(rt: &impl Print, call: Call, answer: Answer) {
    match answer {
        Answer::Accepted(_) | Answer::Walked { .. } | Answer::Scanned { .. } => {}
        Answer::Refused(refusal) => say(rt, refusal_words(refusal)),
        Answer::Lost(loss) => say(rt, loss_words(loss)),
        Answer::PowerFailed(_) => power_words(rt, call, answer),
    }
}

pub fn say_refusal(rt: &impl Print, call: Call, answer: Answer) {
    say_count(rt, b": refused ", answer.number());
    say(rt, b", ");
    answer_words(rt, call, answer);
    say(rt, b"\n");
}

fn say_way(rt: &impl Print, answer: Answer) {
    // By the number that `way` promises, so that the word is held by its clause.
    if answer.way() == 1 {
        say(rt, b"; walk");
    } else {
        say(rt, b"; scan");
    }
    say_count(rt, b"; sectors read ", answer.sectors_read());
}

fn say_tail(rt: &impl Print, state: State) {
    say_count(rt, b"; tail ", state.tail);
    say_count(rt, b"; number ", state.number);
}

pub fn say_name(rt: &impl Print, call: Call) {
    say(
        rt,
        match call {
            Call::Format => b"format",
            Call::Write => b"write",
            Call::Drop => b"drop",
            Call::Read => b"read",
            Call::Park => b"park",
            Call::Recover => b"recover",
            Call::Show => b"show",
            Call::Backlog => b"backlog",
            _ => b"sectors",
        },
    );
}

// The rest of the line of an accepted call.
fn say_acceptance(rt: &impl Print, call: Call, answer: Answer, state: State) {
    say(rt, b": accepted");
    match call {
        Call::Park => say_cost(rt, call, answer),
        Call::Recover => {
            say_way(rt, answer);
            say_cost(rt, call, answer);
            say_tail(rt, state);
        }
        _ => {
            say_cost(rt, call, answer);
            say_tail(rt, state);
        }
    }
    say(rt, b"\n");
}

// The answer of a call that may store.
pub fn say_answer(rt: &impl Print, call: Call, answer: Answer, state: State) {
    say_name(rt, call);
    if answer.number() == 0 {
        say_acceptance(rt, call, answer, state);
        return;
    }
    say_refusal(rt, call, answer);
}

// The form of a call's line.
fn form_words(call: Call) -> &'static [u8] {
    match call {
        Call::Format => b" (format L N [track=T] [tracks=C] [switch=S] [stores=K])",
        Call::Write => b" (write HEAD B=DATA [B=DATA ..] [stores=K])",
        Call::Drop => b" (drop HEAD B [B ..] [stores=K])",
        Call::Read => b" (read B)",
        Call::Park => b" (park [stores=K])",
        Call::Recover => b" (recover [track=T] [tracks=C] [switch=S] [stores=K])",
        Call::Show => b" (show)",
        Call::Sectors => b" (sectors)",
        Call::Backlog => b" (backlog [stores=K])",
        Call::BacklogWrite => b" (write HEAD B=DATA [B=DATA ..])",
        Call::BacklogDrop => b" (drop HEAD B [B ..])",
        Call::BacklogEnd => b" (end)",
        _ => b"",
    }
}

// The start of what was found, where it is long.
fn shortened(text: &[u8]) -> &[u8] {
    text.get(..40).unwrap_or(text)
}

// Where in the line the trouble is: the word there, or the line's end.
fn say_place(rt: &impl Print, line: &[u8], at: usize) {
    let word = tokens::part(line, at, tokens::word_end(line, at));
    if word.is_empty() {
        say(rt, b", found the end of the line");
        return;
    }
    say(rt, b", found ");
    say(rt, shortened(word));
}

// A line that is not understood: what was expected, and what stands there.
pub fn say_trouble(rt: &impl Print, number: u32, line: &[u8], call: Call, fault: Fault) {
    let trouble = fault.trouble;
    let _ = print!(rt; "line {number}: {trouble}");
    say(rt, form_words(call));
    say_place(rt, line, fault.at);
    say(rt, b"\n");
}

// A call that is understood and cannot be made here.
pub fn say_obstacle(rt: &impl Print, number: u32, line: &[u8], trouble: Trouble) {
    let _ = print!(rt; "line {number}: {trouble}, found ");
    say(rt, shortened(line));
    say(rt, b"\n");
}

// A line that is longer than any that is read: at most so many bytes.
pub fn say_long_line(rt: &impl Print, number: u32, most: u64) {
    let _ = println!(rt;
        "line {number}: expected a line of at most {most} bytes, found a longer one"
    );
}

// A line whose end cannot be read.
pub fn say_unreadable(rt: &impl Print, number: u32) {
    let _ = println!(rt; "line {number}: expected the rest of the paper, which cannot be read");
}

// A backlog that the paper does not end. The number is that of its first line.
pub fn say_open_backlog(rt: &impl Print, number: u32) {
    let _ = println!(rt;
        "line {number}: expected end after the commits of this backlog, found the end of the paper"
    );
}
