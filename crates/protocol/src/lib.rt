#![tactic(auto)]

mod counts;
mod setting;
mod theorem;

pub use counts::{Quorums, blocking, fast_quorum, faults, recovery_quorum, vote_quorum};
pub use setting::Setting;
pub use theorem::{cases, confirmations_happen, confirmations_stand};
