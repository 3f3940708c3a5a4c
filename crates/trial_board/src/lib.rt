// The trial: its words on the board, the generator, what stands there before a call and what is counted after it.
#![tactic(auto)]

pub mod backlog;
pub mod cells;
pub mod chance;
pub mod counts;
pub mod difference;
pub mod stand;
