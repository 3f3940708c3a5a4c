// The tables of a log that was found: the live sectors, the map that they hold, and whether all of it is sound.
#![tactic(auto)]

pub mod agrees;
pub mod fill_map;
pub mod live;
