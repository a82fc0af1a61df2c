#![tactic(auto)]

mod client;
mod group;
mod job;
mod job_set;
mod messages;
mod replica;
mod unmade;
mod votes;
mod waiting;

pub use group::Group;
pub use unmade::Unmade;
