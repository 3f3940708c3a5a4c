// What a quote of a commit is: the struct that it is handed back in, its definition, and what is promised of it. There is no code here.
#![tactic(auto)]

use answer::{Cost, Refusal};
use geometry::Geometry;

// The refusal of the commit; or what it would cost, the sectors that it would take, in the order of its stores, the branches that its
// first member would list, and whether it would fold, which goes with any of them. There are as many sectors as stores; what is past the
// counts is zeros.
#[derive(Clone, Copy)]
pub struct Quote {
    pub verdict: Result<(), Refusal>,
    pub cost: Cost,
    pub sectors: [u32; Geometry::COMMIT_SECTORS],
    pub listed: u32,
    pub branches: [u32; Geometry::BRANCH_ROOM],
    pub fold: bool,
}
