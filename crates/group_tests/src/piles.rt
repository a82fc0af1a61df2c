use crate::play::*;
use crate::rows::*;
use base::*;
use books::*;
use group::*;
use logs::*;
use protocol::*;
use std::test::*;
use terms::{Phase, Received};

type Three = Pair<Cards, Pair<Windows, Cards>>;

fn in_book(book: u32, job: Record) -> Record {
    Record { book, ..job }
}

// Jobs of three books do not clash with each other, and a fourth book there is not.
#[test]
fn three_books(rt: HostRuntime) -> Result<(), Fail> {
    let mut group = made::<Three, LineLog>(&rt, 3, 0, true)?;
    plays(
        &rt,
        &mut group,
        &[
            proposes(write(7, 5), 0),
            proposes(booking(7, 8, 9), 1),
            proposes(in_book(2, write(7, 9)), 2),
            misfits(in_book(3, write(7, 9)), 2),
            proposes(in_book(2, write(7, 6)), 3),
            receives(0, 0, Received::Yes),
            receives(0, 1, Received::Yes),
            receives(0, 2, Received::Yes),
            receives(0, 3, Received::No),
            syncs(0, 0),
            syncs(1, 1),
            syncs(2, 0),
            syncs(3, 9),
            queries(3, Phase::Waiting, Some(4), Some(9)),
        ],
    )
}
