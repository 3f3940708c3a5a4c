// The second implementation: the board with everything that a call is lent and hands back, what is signed and what is consistent on it, free
// places, and the list of stores.
#![tactic(auto)]

pub mod board;
pub mod consistent;
pub mod journal;
pub mod kinds;
pub mod places;
pub mod valid;
