ghost use Rattle.std.specs.Prelude.{◌≡◌, ◌≤◌, true, not, [], ◌∷◌, ◌++◌, IfOk, if◌then◌else◌};
ghost use Rattle.std.specs.VecDeque.{deque_capacity};
ghost use Rattle.std.specs.VecDeque.Iter.{deque_iter_rest};
ghost use Rattle.terms.specs.Tests.{mem, distinct, all_below, ascending};
ghost use Rattle.group.specs.Sets.{has, first_of, rest_of};

use crate::job_set::JobSet;
use std::alloc::{AllocError, Global};
use std::collections::{VecDeque, vec_deque};

// The waiting jobs from the head on, none twice, with room for every job that there can be.
#[derive(Drop)]
pub(crate) struct WaitingList {
    jobs: VecDeque<u8>,
    ghost once: { distinct jobs.items ≡ true },
    ghost small: { all_below 256 jobs.items ≡ true },
    ghost roomy: { 256 ≤ deque_capacity jobs },
}

impl WaitingList {
    pub(crate) fn new(heap: Global) -> Result<WaitingList, AllocError>
        ensures { IfOk result (λ w. w.jobs.items ≡ []) }
    {
        let jobs = VecDeque::with_capacity(heap, 256)?;
        Ok(WaitingList { jobs })
    }

    pub(crate) fn iter(&self) -> vec_deque::Iter<'_, u8>
        ensures { deque_iter_rest result ≡ self.now.jobs.items }
    {
        self.jobs.iter()
    }

    pub(crate) fn has(&self, job: u8) -> bool
        ensures { result ≡ mem job self.now.jobs.items }
    {
        self.jobs.contains(&job)
    }

    // A job joins the end, unless it waits already.
    pub(crate) fn join(&mut self, job: u8)
        ensures { self.new.jobs.items ≡ self.old.jobs.items ++ (if not (mem job self.old.jobs.items) then job ∷ [] else []) }
    {
        if !self.has(job) {
            self.jobs.push_back_reserved(job);
        }
    }

    pub(crate) fn head(&self) -> Option<u8>
        ensures { result ≡ first_of self.now.jobs.items }
    {
        self.jobs.front().copied()
    }

    // The head leaves.
    pub(crate) fn advance(&mut self)
        ensures { self.new.jobs.items ≡ rest_of self.old.jobs.items }
    {
        self.jobs.pop_front();
    }

    // The jobs of the set below `count`, in ascending number, in place of those that waited.
    pub(crate) fn refill(&mut self, set: &JobSet, count: usize)
        requires { count ≤ 256 }
        ensures { self.new.jobs.items ≡ ascending count (has set.now) }
    {
        fill(&mut self.jobs, set, count);
    }
}

fn fill(jobs: &mut VecDeque<u8>, set: &JobSet, count: usize)
    requires few { count ≤ 256 }
    requires roomy { 256 ≤ deque_capacity jobs.old }
    ensures items { jobs.new.items ≡ ascending count (has set.now) }
    ensures capacity { deque_capacity jobs.new ≡ deque_capacity jobs.old }
{
    jobs.clear();
    // A loop and no chain: extend may ask for memory.
    for job in 0..count {
        if set.has(job) {
            jobs.push_back_reserved(job as u8);
        }
    }
}
