// Papers: the lines that the desk sets.
#![tactic(auto)]

pub mod data;
pub mod keywords;
pub mod request;
pub mod tokens;
pub mod trouble;
