ghost use Rattle.std.specs.Prelude.{IfOk};
ghost use Rattle.group.specs.Made.{MadeBy, AllEmpty};

use crate::group::Group;
use crate::job::Job;
use crate::replica::Replica;
use crate::unmade::Unmade;
use crate::waiting::WaitingList;
use books::Book;
use logs::Log;
use protocol::Setting;
use std::alloc::{AllocError, Global};

// So many boxes, all empty.
fn empty_boxes(heap: Global, size: usize) -> Result<Vec<Replica>, AllocError>
    ensures { IfOk result (AllEmpty size) }
{
    Ok(vec![in heap; Replica::empty(); size]?)
}

impl<B: Book, L: Log> Group<B, L> {
    // A new group: empty, its book and its log fresh, in epoch 1. It takes all its memory now.
    pub fn new(heap: Global, setting: Setting) -> Result<Group<B, L>, Unmade>
        ensures { MadeBy B.Book L.Log setting result }
    {
        setting.check()?;
        let boxes = empty_boxes(heap, setting.size as usize)?;
        let jobs = Vec::with_capacity(heap, 256)?;
        let waiting = WaitingList::new(heap)?;
        Ok(Group {
            fast: setting.fast,
            leader: setting.leader,
            epoch: 1,
            waiting,
            jobs,
            boxes,
            book: B::fresh(),
            log: L::fresh(),
        })
    }
}
