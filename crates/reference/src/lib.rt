// A second implementation of the calls, naive, for small volumes: at most 1,040 sectors and 4,800 blocks. It is written from documents 01 and 02
// alone and shares nothing with the crates that it is compared with. A call first lists all of its stores, then makes as many as it may; a batch
// is single calls, one after the other.
#![tactic(auto)]

pub mod backlog;
pub mod calls;
pub mod refusals;
