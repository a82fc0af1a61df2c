use crate::play::Row;
use base::*;
use protocol::*;
use terms::{Call, Changed, Phase, Received, Status, Synced, Voters};
use week::Outcome;

// A value written into a slot of the cards. The result is the value before.
pub(crate) fn write(x: u32, y: u32) -> Record {
    Record {
        book: 0,
        act: 1,
        x,
        y,
        z: 0,
    }
}

// Hours of a vehicle booked. The result is 1 where they were free, and else 0.
pub(crate) fn booking(x: u32, y: u32, z: u32) -> Record {
    Record {
        book: 1,
        act: 0,
        x,
        y,
        z,
    }
}

pub(crate) fn voters(digits: &[u32]) -> Voters {
    digits
        .iter()
        .fold(Voters::none(), |voters, digit| voters.with(*digit))
}

// The rows of a table, by what each call tells.
pub(crate) fn proposes(record: Record, job: u32) -> Row {
    (Call::Propose(record), Ok(Outcome::Proposed(job)))
}

pub(crate) fn receives(replica: u32, job: u32, what: Received) -> Row {
    (Call::Receive { replica, job }, Ok(Outcome::Received(what)))
}

pub(crate) fn hears(replica: u32, job: u32, phase: Phase) -> Row {
    (Call::Hear { replica, job }, Ok(Outcome::Heard(phase)))
}

pub(crate) fn syncs(job: u32, given: u32) -> Row {
    (
        Call::Sync,
        Ok(Outcome::Synced(Synced { job, result: given })),
    )
}

pub(crate) fn notices(replica: u32, job: u32, left: u32) -> Row {
    (Call::Notice { replica, job }, Ok(Outcome::Noticed(left)))
}

pub(crate) fn changes(leader: u32, digits: &[u32], epoch: u32, recovered: u32) -> Row {
    let voters = voters(digits);
    (
        Call::Change { leader, voters },
        Ok(Outcome::Changed(Changed { epoch, recovered })),
    )
}

pub(crate) fn queries(job: u32, phase: Phase, place: Option<u32>, given: Option<u32>) -> Row {
    let status = Status {
        phase,
        told: phase.told(),
        place,
        given,
    };
    (Call::Query { job }, Ok(Outcome::Queried(status)))
}

// The group refuses the call.
pub(crate) fn refuses(call: Call, refusal: Refusal) -> Row {
    (call, Err(Fault::of(refusal, Layer::Group)))
}

// The book does not take the record, for the field.
pub(crate) fn misfits(record: Record, field: u8) -> Row {
    (Call::Propose(record), Err(Fault::misfit(field)))
}
