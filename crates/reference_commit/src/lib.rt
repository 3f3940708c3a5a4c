// The second implementation: the plan of a commit.
#![tactic(auto)]

pub mod branches;
pub mod changes;
