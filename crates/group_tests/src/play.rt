use crate::rows::*;
use base::*;
use books::*;
use group::*;
use logs::*;
use protocol::*;
use std::array;
use std::ops::Range;
use std::process::Abort;
use std::test::*;
use terms::{Call, Status};
use week::{Outcome, perform};

pub(crate) type Shipped = Group<ShippedBooks, ShippedLog>;

// A call, and what it should come to.
pub(crate) type Row = (Call, Result<Outcome, Fault>);

pub(crate) fn made<B: Book, L: Log>(
    rt: &impl AllocGlobal,
    size: u32,
    leader: u32,
    fast: bool,
) -> Result<Group<B, L>, Fail> {
    let setting = Setting { size, leader, fast };
    Ok(Group::new(rt.alloc(), setting)?)
}

pub(crate) fn shipped(
    rt: &impl AllocGlobal,
    size: u32,
    leader: u32,
    fast: bool,
) -> Result<Shipped, Fail> {
    made(rt, size, leader, fast)
}

// What a query tells of each of the first eight jobs.
fn statuses<B: Book, L: Log>(group: &Group<B, L>) -> [Option<Status>; 8] {
    array::from_fn(|job| group.query(job as u32).ok())
}

// Makes one call after the other. A refused one leaves the first eight jobs as they were.
pub(crate) fn plays<B: Book, L: Log>(
    rt: &impl Abort,
    group: &mut Group<B, L>,
    rows: &[Row],
) -> Result<(), Fail> {
    for (i, (call, expected)) in rows.iter().enumerate() {
        let before = statuses(group);
        let told = perform(group, *call);
        assert_eq!(rt; told, *expected, "row {i}");
        if told.is_err() {
            assert_eq!(rt; statuses(group), before, "row {i}");
        }
    }
    Ok(())
}

// Makes the call that the row has for each box, box after box.
pub(crate) fn plays_each<B: Book, L: Log, F: Fn(u32) -> Row>(
    rt: &impl Abort,
    group: &mut Group<B, L>,
    replicas: Range<u32>,
    row: F,
) -> Result<(), Fail>
    requires { F.IsAlwaysCallable row }
{
    for replica in replicas {
        plays(rt, group, &[row(replica)])?;
    }
    Ok(())
}
