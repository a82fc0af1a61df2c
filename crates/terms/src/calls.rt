ghost use Rattle.std.specs.Prelude.{◌≡◌};
ghost use Rattle.terms.specs.Written.{received_number, received_letter, verdict};

use crate::answers::{Phase, Reply};
use crate::voters::Voters;
use base::Record;

// What can be asked of a group. Replicas and jobs go by their numbers, from 0; any number may be named,
// and each is tested by itself, so the two are no pair.
#[derive(Clone, Copy, PartialEq, Eq, Debug)]
pub enum Call {
    Propose(Record),
    Receive { replica: u32, job: u32 },
    Hear { replica: u32, job: u32 },
    Sync,
    Notice { replica: u32, job: u32 },
    Change { leader: u32, voters: Voters },
    Query { job: u32 },
}

// What a receive came to: a yes, a no, or a request that was dropped.
#[derive(Clone, Copy, PartialEq, Eq, Debug)]
pub enum Received {
    Yes,
    No,
    Dropped,
}

impl From<Received> for u8 {
    ghost from_gives = { λ received number. number ≡ received_number received };

    fn from(received: Received) -> u8 {
        received as u8
    }
}

// What a box has said by its reply.
impl From<Reply> for Received {
    ghost from_gives = { λ reply received. received ≡ verdict reply };

    fn from(reply: Reply) -> Received {
        match reply {
            Reply::No { .. } => Received::No,
            Reply::Yes { .. } | Reply::Told { .. } => Received::Yes,
        }
    }
}

// The letter that a report has for the outcome.
impl From<Received> for char {
    ghost from_gives = { λ received letter. letter ≡ received_letter received };

    fn from(received: Received) -> char {
        match received {
            Received::Yes => 'y',
            Received::No => 'n',
            Received::Dropped => 'd',
        }
    }
}

// The job that a sync put into the log, and the result that it gave.
#[derive(Clone, Copy, PartialEq, Eq, Debug)]
pub struct Synced {
    pub job: u32,
    pub result: u32,
}

// The epoch that a change began, and how many jobs it recovered.
#[derive(Clone, Copy, PartialEq, Eq, Debug)]
pub struct Changed {
    pub epoch: u32,
    pub recovered: u32,
}

// What a query tells of a job; its place in the log counts from 1.
#[derive(Clone, Copy, PartialEq, Eq, Debug)]
pub struct Status {
    pub phase: Phase,
    pub told: Option<u32>,
    pub place: Option<u32>,
    pub given: Option<u32>,
}
