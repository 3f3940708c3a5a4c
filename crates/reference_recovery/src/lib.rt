// The second implementation: the log found by a scan or by a walk.
#![tactic(auto)]

pub mod scanned;
pub mod walked;
