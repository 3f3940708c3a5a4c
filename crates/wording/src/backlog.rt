// The answer of a backlog, and of each of its commits: the line that the commit made singly would have.
use crate::say;
use answer::{Answer, Cost, Refusal};
use paper::request::Call;
use state::State;
use std::io::Print;

// The refusal that has this number. The type is another crate's, so that no From can be given to it here.
fn refusal_of(number: u32) -> Refusal {
    match number {
        1 => Refusal::Size,
        2 => Refusal::BufferLength,
        3 => Refusal::BlockNumbers,
        4 => Refusal::WrongPhase,
        5 => Refusal::Inconsistent,
        6 => Refusal::NoRoom,
        7 => Refusal::NumbersUsedUp,
        11 => Refusal::WrongSettings,
        _ => Refusal::CommitCount,
    }
}

// What a write or a drop answered, from its number, as the C interface has it, and its cost.
fn answer_of(number: u32, cost: Cost) -> Answer {
    match number {
        0 => Answer::Accepted(cost),
        10 => Answer::PowerFailed(cost),
        _ => Answer::Refused(refusal_of(number)),
    }
}

// A commit of a backlog, with the state that it left.
pub fn say_commit(rt: &impl Print, call: Call, number: u32, cost: Cost, state: State) {
    say::say_answer(rt, call, answer_of(number, cost), state);
}

// The line of the backlog itself: turned back as a whole, or how many of its commits were answered.
pub fn say_backlog(rt: &impl Print, verdict: Result<(), Refusal>, answered: u32, commits: u32) {
    say::say_name(rt, Call::Backlog);
    match verdict {
        Err(refusal) => say::say_refusal(rt, Call::Backlog, Answer::Refused(refusal)),
        Ok(()) => {
            say::say_count(rt, b": ", answered);
            say::say_count(rt, b" of ", commits);
            say::say(rt, b" answered\n");
        }
    }
}
