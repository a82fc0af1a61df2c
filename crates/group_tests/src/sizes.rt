use crate::play::*;
use crate::rows::*;
use base::*;
use books::*;
use group::*;
use logs::*;
use protocol::*;
use std::process::Abort;
use std::test::*;
use terms::{Phase, Received};

// At each size: the last box, and how many answers confirm, how many pools recover, how many refusals block.
const SIZES: [(u32, u32, [u32; 3]); 5] = [
    (1, 0, [1, 1, 1]),
    (3, 2, [3, 2, 1]),
    (5, 4, [4, 2, 2]),
    (7, 6, [6, 3, 2]),
    (9, 8, [7, 3, 3]),
];

#[test]
fn quorums(rt: HostRuntime) -> Result<(), Fail> {
    for (size, _, [fast, recovery, blocking]) in SIZES {
        let counts = Quorums {
            fast,
            recovery,
            blocking,
        };
        assert_eq!(rt; shipped(&rt, size, 0, true)?.quorums(), counts);
    }
    Ok(())
}

// All boxes say yes. The job is confirmed once enough answers are heard, the leader's among them.
fn confirms(
    rt: &(impl Abort + AllocGlobal),
    size: u32,
    leader: u32,
    enough: u32,
) -> Result<(), Fail> {
    let mut group = shipped(rt, size, leader, true)?;
    plays(rt, &mut group, &[proposes(booking(3, 8, 10), 0)])?;
    plays_each(rt, &mut group, 0..size, |r| receives(r, 0, Received::Yes))?;
    // The box whose answer confirms the job: the leader, or the last of enough.
    let first = leader.max(enough.saturating_sub(1));
    let confirmed = Phase::Fast {
        result: 1,
        epoch: 1,
    };
    plays_each(rt, &mut group, 0..first, |r| hears(r, 0, Phase::Waiting))?;
    plays_each(rt, &mut group, first..size, |r| hears(r, 0, confirmed))?;
    plays(rt, &mut group, &[syncs(0, 1)])
}

#[test]
fn fast(rt: HostRuntime) -> Result<(), Fail> {
    for (size, last, [enough, _, _]) in SIZES {
        confirms(&rt, size, 0, enough)?;
        confirms(&rt, size, last, enough)?;
    }
    Ok(())
}

// Without the fast way all boxes say no, and the job is slow once enough of them are heard.
fn declines(rt: &(impl Abort + AllocGlobal), size: u32, enough: u32) -> Result<(), Fail> {
    let mut group = shipped(rt, size, 0, false)?;
    plays(rt, &mut group, &[proposes(booking(3, 8, 10), 0)])?;
    plays_each(rt, &mut group, 0..size, |r| receives(r, 0, Received::No))?;
    // The box whose answer makes the job slow.
    let first = enough.saturating_sub(1);
    plays_each(rt, &mut group, 0..first, |r| hears(r, 0, Phase::Waiting))?;
    plays_each(rt, &mut group, first..size, |r| hears(r, 0, Phase::Slow))?;
    plays(
        rt,
        &mut group,
        &[syncs(0, 1), queries(0, Phase::Slow, Some(1), Some(1))],
    )
}

#[test]
fn slow(rt: HostRuntime) -> Result<(), Fail> {
    for (size, _, [_, _, enough]) in SIZES {
        declines(&rt, size, enough)?;
    }
    Ok(())
}
