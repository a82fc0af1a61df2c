ghost use Rattle.std.specs.Prelude.{true, false, ◌||◌};
ghost use Rattle.terms.specs.Tests.{put};
ghost use Rattle.group.specs.Sets.{has, Has, Requested, Notified};

use crate::job_set::JobSet;

// One box: the requests and notices in transit to it, the notices it has taken, its pool.
#[derive(Clone, Copy)]
pub(crate) struct Replica {
    pub requests: JobSet,
    pub notices: JobSet,
    pub taken: JobSet,
    pub pool: JobSet,
}

impl Replica {
    pub(crate) fn empty() -> Replica
        ensures { Has result (λ _. false) (λ _. false) (λ _. false) (λ _. false) }
    {
        let none = JobSet::none();
        Replica {
            requests: none,
            notices: none,
            taken: none,
            pool: none,
        }
    }

    // A request for the job is on its way.
    pub(crate) fn send_request(&mut self, job: u8)
        ensures { Requested job self.old self.new }
    {
        self.requests.insert(job);
    }

    // A notice of the job is on its way.
    pub(crate) fn send_notice(&mut self, job: u8)
        ensures { Notified job self.old self.new }
    {
        self.notices.insert(job);
    }

    // The request was taken, and nothing else.
    pub(crate) fn drop_request(&mut self, job: u8)
        ensures { Has self.new (put (has self.old.requests) job false) (has self.old.notices) (has self.old.taken) (has self.old.pool) }
    {
        self.requests.remove(job);
    }

    // The request was taken; the job joined the pool or not. An `if` at the caller gets no proof: where its branches
    // join, the group has no name that a proof may cite.
    pub(crate) fn take_request(&mut self, job: u8, joins: bool)
        ensures { Has self.new (put (has self.old.requests) job false) (has self.old.notices) (has self.old.taken) (put (has self.old.pool) job (joins || has self.old.pool job)) }
    {
        self.requests.remove(job);
        if joins {
            self.pool.insert(job);
        }
    }

    // The notice was taken, and the job left the pool.
    pub(crate) fn take_notice(&mut self, job: u8)
        ensures { Has self.new (has self.old.requests) (put (has self.old.notices) job false) (put (has self.old.taken) job true) (put (has self.old.pool) job false) }
    {
        self.notices.remove(job);
        self.taken.insert(job);
        self.pool.remove(job);
    }
}
