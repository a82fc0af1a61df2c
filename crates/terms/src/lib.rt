// The words of the protocol: answers and phases, calls and what they tell, sets of voters.
#![tactic(auto)]

mod answers;
mod calls;
mod voters;

pub use answers::{Answer, Phase, Reply};
pub use calls::{Call, Changed, Received, Status, Synced};
pub use voters::Voters;
