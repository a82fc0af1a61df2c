ghost use Rattle.std.specs.Prelude.{◌≡◌};
ghost use Rattle.week.specs.Runs.{ends};

use base::Fault;
use protocol::Quorums;
use terms::{Call, Changed, Phase, Received, Status, Synced};

// What a setting or a call told that was not refused.
#[derive(Clone, Copy, PartialEq, Eq, Debug)]
pub enum Outcome {
    Started(Quorums),
    Proposed(u32),
    Received(Received),
    Heard(Phase),
    Synced(Synced),
    Noticed(u32),
    Changed(Changed),
    Queried(Status),
}

// What a line of a file came to: it told something, its call was refused, or it ended the run.
#[derive(Clone, Copy, PartialEq, Eq, Debug)]
pub enum Event {
    Told(Outcome),
    Refused(Call, Fault),
    Ended(Fault),
}

impl Event {
    // Whether the line ended the run.
    pub(crate) fn ends(self) -> bool
        ensures { result ≡ ends self }
    {
        matches!(self, Event::Ended(_))
    }
}
