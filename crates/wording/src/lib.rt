// The words of the answers that the desk's program gives.
#![tactic(auto)]

pub mod backlog;
pub mod say;
