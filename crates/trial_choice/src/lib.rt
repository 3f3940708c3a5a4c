// The trial: random calls, random backlogs, random settings, and random damage.
#![tactic(auto)]

pub mod backlog;
pub mod choice;
pub mod commits;
pub mod damage;
pub mod settings;
