use crate::play::*;
use crate::rows::*;
use base::*;
use books::*;
use group::*;
use logs::*;
use protocol::*;
use std::test::*;
use terms::{Call, Phase, Received};

fn confirmed(told: u32, epoch: u32) -> Phase {
    Phase::Fast {
        result: told,
        epoch,
    }
}

// Five answers of yes, three of one epoch and two of the next, confirm nothing.
#[test]
fn mid_answer(rt: HostRuntime) -> Result<(), Fail> {
    let mut group = shipped(&rt, 5, 0, true)?;
    plays(&rt, &mut group, &[proposes(booking(3, 8, 10), 0)])?;
    plays_each(&rt, &mut group, 0..3, |r| receives(r, 0, Received::Yes))?;
    plays(&rt, &mut group, &[changes(1, &[0, 1, 2], 2, 1)])?;
    plays_each(&rt, &mut group, 3..5, |r| receives(r, 0, Received::Yes))?;
    plays_each(&rt, &mut group, 0..5, |r| hears(r, 0, Phase::Waiting))?;
    plays(
        &rt,
        &mut group,
        &[syncs(0, 1), queries(0, Phase::Waiting, Some(1), Some(1))],
    )
}

// One pool does not recover a job, and the next leader tells its result anew: four answers of its epoch confirm it.
#[test]
fn told_twice(rt: HostRuntime) -> Result<(), Fail> {
    let mut group = shipped(&rt, 5, 0, true)?;
    plays(
        &rt,
        &mut group,
        &[
            proposes(booking(3, 8, 10), 0),
            receives(0, 0, Received::Yes),
            changes(1, &[1, 2, 3], 2, 0),
            refuses(Call::Sync, Refusal::NothingWaits),
        ],
    )?;
    plays_each(&rt, &mut group, 1..5, |r| receives(r, 0, Received::Yes))?;
    plays_each(&rt, &mut group, 0..4, |r| hears(r, 0, Phase::Waiting))?;
    plays(&rt, &mut group, &[hears(4, 0, confirmed(1, 2))])
}

// A confirmed job is kept by a change, ahead of what clashes with it, and gives the told result. A job in one pool is lost.
#[test]
fn confirmed_survives(rt: HostRuntime) -> Result<(), Fail> {
    let mut group = shipped(&rt, 5, 0, true)?;
    plays(&rt, &mut group, &[proposes(booking(3, 8, 10), 0)])?;
    plays_each(&rt, &mut group, 0..4, |r| receives(r, 0, Received::Yes))?;
    plays_each(&rt, &mut group, 0..3, |r| hears(r, 0, Phase::Waiting))?;
    plays(
        &rt,
        &mut group,
        &[
            hears(3, 0, confirmed(1, 1)),
            proposes(booking(4, 8, 10), 1),
            receives(0, 1, Received::Yes),
            changes(4, &[2, 3, 4], 2, 1),
            proposes(booking(3, 9, 12), 2),
            receives(4, 2, Received::No),
            syncs(0, 1),
            syncs(2, 0),
            refuses(Call::Sync, Refusal::NothingWaits),
            queries(0, confirmed(1, 1), Some(1), Some(1)),
            queries(1, Phase::Waiting, None, None),
            queries(2, Phase::Waiting, Some(2), Some(0)),
        ],
    )
}

// A recovered job whose request comes to the new leader waits once.
#[test]
fn waits_once(rt: HostRuntime) -> Result<(), Fail> {
    let mut group = shipped(&rt, 3, 0, true)?;
    plays(
        &rt,
        &mut group,
        &[
            proposes(write(7, 5), 0),
            receives(0, 0, Received::Yes),
            receives(2, 0, Received::Yes),
            changes(1, &[0, 2], 2, 1),
            receives(1, 0, Received::No),
            syncs(0, 0),
            refuses(Call::Sync, Refusal::NothingWaits),
        ],
    )
}

// What is recovered waits in ascending number, whatever waited before, and without what is in the log.
#[test]
fn recovered_in_order(rt: HostRuntime) -> Result<(), Fail> {
    let mut group = shipped(&rt, 3, 0, true)?;
    plays(
        &rt,
        &mut group,
        &[
            proposes(write(1, 5), 0),
            proposes(write(2, 5), 1),
            proposes(write(3, 5), 2),
            receives(0, 2, Received::Yes),
            receives(0, 1, Received::Yes),
            receives(0, 0, Received::Yes),
            receives(1, 0, Received::Yes),
            receives(1, 1, Received::Yes),
            receives(1, 2, Received::Yes),
            syncs(2, 0),
            changes(0, &[0, 1], 2, 2),
            syncs(0, 0),
            syncs(1, 0),
            refuses(Call::Sync, Refusal::NothingWaits),
        ],
    )
}

// A leader says no to what clashes with a waiting job that no pool holds any more.
#[test]
fn leader_looks(rt: HostRuntime) -> Result<(), Fail> {
    let mut group = shipped(&rt, 3, 0, true)?;
    plays(
        &rt,
        &mut group,
        &[
            proposes(write(7, 5), 0),
            receives(0, 0, Received::Yes),
            proposes(write(7, 6), 1),
            receives(0, 1, Received::No),
            syncs(0, 0),
            notices(0, 0, 0),
            proposes(write(7, 9), 2),
            receives(0, 2, Received::No),
            syncs(1, 5),
            notices(0, 1, 1),
            syncs(2, 6),
            notices(0, 2, 0),
        ],
    )
}

// A request is dropped where the box took the notice, or leads and the job is in the log; any other box takes it.
#[test]
fn dropped(rt: HostRuntime) -> Result<(), Fail> {
    let mut group = shipped(&rt, 5, 0, true)?;
    plays(
        &rt,
        &mut group,
        &[
            proposes(write(7, 5), 0),
            receives(0, 0, Received::Yes),
            syncs(0, 0),
            notices(1, 0, 0),
            receives(1, 0, Received::Dropped),
            refuses(Call::Receive { replica: 1, job: 0 }, Refusal::NotInTransit),
            refuses(Call::Hear { replica: 1, job: 0 }, Refusal::NotInTransit),
            receives(3, 0, Received::Yes),
            changes(2, &[0, 1, 3], 2, 0),
            receives(2, 0, Received::Dropped),
            refuses(Call::Sync, Refusal::NothingWaits),
            queries(0, Phase::Waiting, Some(1), Some(0)),
        ],
    )
}
