// The calls for C and Rust.
#![tactic(auto)]

pub mod calls;
