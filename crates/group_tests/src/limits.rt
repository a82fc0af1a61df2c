use crate::NoLog;
use crate::play::*;
use crate::rows::*;
use base::*;
use books::*;
use group::*;
use logs::*;
use protocol::*;
use std::process::Abort;
use std::test::*;
use terms::{Call, Changed, Phase, Received};
use week::{Outcome, perform};

// Epoch 9,999 is the last, with a job that every change recovers.
#[test]
fn epochs(rt: HostRuntime) -> Result<(), Fail> {
    let mut group = shipped(&rt, 1, 0, true)?;
    plays(
        &rt,
        &mut group,
        &[proposes(write(7, 5), 0), receives(0, 0, Received::Yes)],
    )?;
    let again = Call::Change {
        leader: 0,
        voters: voters(&[0]),
    };
    let nobody = Call::Change {
        leader: 0,
        voters: voters(&[]),
    };
    for epoch in 2..10_000 {
        let changed = Changed {
            epoch,
            recovered: 1,
        };
        assert_eq!(rt; perform(&mut group, again), Ok(Outcome::Changed(changed)));
    }
    let confirmed = Phase::Fast {
        result: 0,
        epoch: 9_999,
    };
    plays(
        &rt,
        &mut group,
        &[
            refuses(again, Refusal::LastEpoch),
            refuses(nobody, Refusal::WrongVoters),
            proposes(write(8, 5), 1),
            receives(0, 1, Received::Yes),
            hears(0, 1, confirmed),
            syncs(0, 0),
            syncs(1, 0),
        ],
    )
}

// As many jobs as the log can hold, all on one slot: the next is refused, and the log takes in every one.
fn holds<L: Log + Drop>(rt: &(impl Abort + AllocGlobal), limit: u32) -> Result<(), Fail> {
    let mut group = made::<Cards, L>(rt, 1, 0, false)?;
    for job in 0..limit {
        plays(rt, &mut group, &[proposes(write(7, job), job)])?;
    }
    let full = [
        misfits(write(256, 0), 4),
        refuses(Call::Propose(write(7, 0)), Refusal::Full),
        refuses(Call::Sync, Refusal::NothingWaits),
        refuses(Call::Query { job: limit }, Refusal::NoJob),
    ];
    plays(rt, &mut group, &full)?;
    for job in 0..limit {
        plays(rt, &mut group, &[receives(0, job, Received::No)])?;
    }
    for job in 0..limit {
        let before = job.saturating_sub(1);
        let last = queries(
            job,
            Phase::Waiting,
            Some(job.saturating_add(1)),
            Some(before),
        );
        plays(rt, &mut group, &[syncs(job, before), last])?;
    }
    plays(rt, &mut group, &full)
}

#[test]
fn jobs_of_the_shipped_log(rt: HostRuntime) -> Result<(), Fail> {
    holds::<ShippedLog>(&rt, 256)
}

// A log that could hold 512 has no more than 256 jobs to hold.
#[test]
fn jobs_of_a_long_log(rt: HostRuntime) -> Result<(), Fail> {
    holds::<Continued<ShippedLog, ShippedLog>>(&rt, 256)
}

#[test]
fn jobs_of_an_array_log(rt: HostRuntime) -> Result<(), Fail> {
    holds::<ArrayLog>(&rt, 128)
}

#[test]
fn jobs_of_a_line_log(rt: HostRuntime) -> Result<(), Fail> {
    holds::<LineLog>(&rt, 100)
}

#[test]
fn jobs_of_no_log(rt: HostRuntime) -> Result<(), Fail> {
    holds::<NoLog>(&rt, 0)
}
