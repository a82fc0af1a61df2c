use crate::play::*;
use crate::rows::*;
use base::*;
use books::*;
use group::*;
use logs::*;
use protocol::*;
use std::test::*;
use terms::{Call, Phase, Received};

const CONFIRMED: Phase = Phase::Fast {
    result: 0,
    epoch: 1,
};

// Each refusal of each call leaves the group as it was; the calls after it go on as if it had not been.

// The fault of a setting with which no group is made.
fn unmade(rt: &impl AllocGlobal, size: u32, leader: u32) -> Option<Fault> {
    let setting = Setting {
        size,
        leader,
        fast: true,
    };
    match Shipped::new(rt.alloc(), setting) {
        Err(Unmade::Refused(fault)) => Some(fault),
        _ => None,
    }
}

// The numbers that reports have for what a group refuses.
#[test]
fn numbers(rt: HostRuntime) {
    let refusals = [
        Refusal::BadSize,
        Refusal::BadLeader,
        Refusal::Misfit,
        Refusal::Full,
        Refusal::NoReplica,
        Refusal::NoJob,
        Refusal::NotInTransit,
        Refusal::NothingWaits,
        Refusal::WrongVoters,
        Refusal::LastEpoch,
    ];
    for (number, refusal) in (1..).zip(refusals) {
        assert_eq!(rt; u32::from(refusal), number);
    }
}

#[test]
fn settings(rt: HostRuntime) -> Result<(), Fail> {
    let bad_size = Some(Fault::of(Refusal::BadSize, Layer::Group));
    for size in [0, 2, 4, 6, 8, 10, 11, u32::MAX] {
        assert_eq!(rt; unmade(&rt, size, 0), bad_size);
        assert_eq!(rt; unmade(&rt, size, u32::MAX), bad_size);
    }
    let bad_leader = Some(Fault::of(Refusal::BadLeader, Layer::Group));
    for size in [1, 3, 5, 7, 9] {
        assert_eq!(rt; unmade(&rt, size, 0), None);
        assert_eq!(rt; unmade(&rt, size, size), bad_leader);
        assert_eq!(rt; unmade(&rt, size, u32::MAX), bad_leader);
    }
    Ok(())
}

#[test]
fn propose(rt: HostRuntime) -> Result<(), Fail> {
    let mut group = shipped(&rt, 3, 0, true)?;
    let wrong = write(256, 1);
    plays(
        &rt,
        &mut group,
        &[
            misfits(Record { book: 2, ..wrong }, 2),
            misfits(Record { act: 3, ..wrong }, 3),
            misfits(write(256, 1_000_000), 4),
            proposes(write(7, 5), 0),
            misfits(write(7, 1_000_000), 5),
            misfits(booking(3, 8, 8), 6),
            proposes(booking(3, 8, 10), 1),
        ],
    )
}

#[test]
fn receive(rt: HostRuntime) -> Result<(), Fail> {
    let mut group = shipped(&rt, 3, 0, true)?;
    plays(
        &rt,
        &mut group,
        &[
            refuses(Call::Receive { replica: 0, job: 0 }, Refusal::NoJob),
            proposes(write(7, 5), 0),
            refuses(Call::Receive { replica: 3, job: 0 }, Refusal::NoReplica),
            refuses(Call::Receive { replica: 3, job: 1 }, Refusal::NoReplica),
            refuses(Call::Receive { replica: 2, job: 1 }, Refusal::NoJob),
            receives(2, 0, Received::Yes),
            refuses(Call::Receive { replica: 2, job: 0 }, Refusal::NotInTransit),
            receives(0, 0, Received::Yes),
            receives(1, 0, Received::Yes),
        ],
    )
}

#[test]
fn hear(rt: HostRuntime) -> Result<(), Fail> {
    let mut group = shipped(&rt, 3, 0, true)?;
    plays(
        &rt,
        &mut group,
        &[
            refuses(Call::Hear { replica: 0, job: 0 }, Refusal::NoJob),
            proposes(write(7, 5), 0),
            refuses(Call::Hear { replica: 3, job: 0 }, Refusal::NoReplica),
            refuses(Call::Hear { replica: 3, job: 1 }, Refusal::NoReplica),
            refuses(Call::Hear { replica: 0, job: 1 }, Refusal::NoJob),
            refuses(Call::Hear { replica: 0, job: 0 }, Refusal::NotInTransit),
            receives(0, 0, Received::Yes),
            receives(1, 0, Received::Yes),
            receives(2, 0, Received::Yes),
            hears(0, 0, Phase::Waiting),
            refuses(Call::Hear { replica: 0, job: 0 }, Refusal::NotInTransit),
            hears(1, 0, Phase::Waiting),
            hears(2, 0, CONFIRMED),
            refuses(Call::Hear { replica: 2, job: 0 }, Refusal::NotInTransit),
            queries(0, CONFIRMED, None, None),
        ],
    )
}

#[test]
fn sync(rt: HostRuntime) -> Result<(), Fail> {
    let mut group = shipped(&rt, 3, 0, true)?;
    plays(
        &rt,
        &mut group,
        &[
            refuses(Call::Sync, Refusal::NothingWaits),
            proposes(write(7, 5), 0),
            receives(1, 0, Received::Yes),
            refuses(Call::Sync, Refusal::NothingWaits),
            receives(0, 0, Received::Yes),
            syncs(0, 0),
            refuses(Call::Sync, Refusal::NothingWaits),
            proposes(write(7, 6), 1),
            receives(0, 1, Received::No),
            syncs(1, 5),
            queries(1, Phase::Waiting, Some(2), Some(5)),
        ],
    )
}

#[test]
fn notice(rt: HostRuntime) -> Result<(), Fail> {
    let mut group = shipped(&rt, 3, 0, true)?;
    plays(
        &rt,
        &mut group,
        &[
            refuses(Call::Notice { replica: 0, job: 0 }, Refusal::NoJob),
            proposes(write(7, 5), 0),
            proposes(write(8, 5), 1),
            receives(0, 0, Received::Yes),
            receives(0, 1, Received::Yes),
            refuses(Call::Notice { replica: 3, job: 0 }, Refusal::NoReplica),
            refuses(Call::Notice { replica: 3, job: 2 }, Refusal::NoReplica),
            refuses(Call::Notice { replica: 0, job: 2 }, Refusal::NoJob),
            refuses(Call::Notice { replica: 0, job: 0 }, Refusal::NotInTransit),
            syncs(0, 0),
            notices(0, 0, 1),
            refuses(Call::Notice { replica: 0, job: 0 }, Refusal::NotInTransit),
            notices(1, 0, 0),
        ],
    )
}

fn change(leader: u32, digits: &[u32]) -> Call {
    Call::Change {
        leader,
        voters: voters(digits),
    }
}

#[test]
fn changes_refused(rt: HostRuntime) -> Result<(), Fail> {
    let mut group = shipped(&rt, 5, 0, true)?;
    plays(
        &rt,
        &mut group,
        &[
            proposes(write(7, 5), 0),
            receives(0, 0, Received::Yes),
            receives(1, 0, Received::Yes),
            refuses(change(5, &[0, 1, 2]), Refusal::BadLeader),
            refuses(change(5, &[9]), Refusal::BadLeader),
            refuses(change(1, &[0, 1, 5]), Refusal::NoReplica),
            refuses(change(1, &[9]), Refusal::NoReplica),
            refuses(change(1, &[0, 1]), Refusal::WrongVoters),
            refuses(change(1, &[0, 1, 2, 3]), Refusal::WrongVoters),
            refuses(change(1, &[0, 1, 1]), Refusal::WrongVoters),
            refuses(change(1, &[]), Refusal::WrongVoters),
            changes(1, &[0, 1, 2], 2, 1),
            refuses(change(1, &[0, 1]), Refusal::WrongVoters),
            changes(0, &[0, 1, 2], 3, 1),
        ],
    )
}

#[test]
fn query(rt: HostRuntime) -> Result<(), Fail> {
    let mut group = shipped(&rt, 3, 0, true)?;
    plays(
        &rt,
        &mut group,
        &[
            refuses(Call::Query { job: 0 }, Refusal::NoJob),
            proposes(write(7, 5), 0),
            queries(0, Phase::Waiting, None, None),
            refuses(Call::Query { job: 1 }, Refusal::NoJob),
            refuses(Call::Query { job: u32::MAX }, Refusal::NoJob),
        ],
    )
}
