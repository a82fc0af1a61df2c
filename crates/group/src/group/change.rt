ghost use Rattle.std.specs.Prelude.{◌≡◌, ℕ, Bool};
ghost use Rattle.terms.specs.declared.calls.Call.TheVariants.{Change};
ghost use Rattle.protocol.specs.Outcomes.{settled};
ghost use Rattle.protocol.specs.Refusals.{change_refusal};
ghost use Rattle.protocol.specs.Steps.{changed, recovered};
ghost use Rattle.protocol.specs.Histories.{step};
ghost use Rattle.group.specs.Sets.{has};
ghost use Rattle.group.specs.View.{state_of};

use crate::group::Group;
use crate::job_set::JobSet;
use crate::votes::holders;
use base::{Fault, Layer, Refusal};
use books::Book;
use logs::Log;
use protocol::{recovery_quorum, vote_quorum};
use terms::{Changed, Voters};

// No epoch comes after this one.
const LAST_EPOCH: u32 = 9999;

impl<B: Book, L: Log> Group<B, L> {
    // Enough of the voters' pools hold the job, and it is not in the log.
    fn is_recovered(&self, voters: Voters, job: usize) -> bool
        ensures { result ≡ recovered (state_of B.Book L.Log self.now) voters job }
    {
        let enough = recovery_quorum(self.boxes.len() as u32) as usize;
        job < self.jobs.len()
            && !self.logged(job as u32)
            && holders(self.boxes.as_slice(), voters, job) >= enough
    }

    // The jobs that a change with these voters keeps.
    fn recover(&self, voters: Voters) -> JobSet
        ensures { (c : ℕ) → has result c ≡ recovered (state_of B.Book L.Log self.now) voters c }
    {
        let mut set = JobSet::none();
        // A loop over the jobs that there are: a set made by a test would test all 256 at each change.
        for job in 0..self.jobs.len() {
            if self.is_recovered(voters, job) {
                set.insert(job as u8);
            }
        }
        set
    }

    // Whether the leader and the voters may be named, and there is an epoch left.
    fn allows(&self, leader: u32, voters: Voters) -> Result<(), Fault>
        ensures { result ≡ settled (change_refusal leader voters (state_of B.Book L.Log self.now)) tt }
    {
        let size = self.boxes.len() as u32;
        if leader >= size {
            return Err(Fault::of(Refusal::BadLeader, Layer::Group));
        }
        if voters.has_stranger(size) {
            return Err(Fault::of(Refusal::NoReplica, Layer::Group));
        }
        if voters.count() != vote_quorum(size) {
            return Err(Fault::of(Refusal::WrongVoters, Layer::Group));
        }
        if self.epoch >= LAST_EPOCH {
            return Err(Fault::of(Refusal::LastEpoch, Layer::Group));
        }
        Ok(())
    }

    // A new leader, with these voters. What enough of their pools hold is kept, and waits in ascending number.
    pub fn change(&mut self, leader: u32, voters: Voters) -> Result<Changed, Fault>
        ensures state { state_of B.Book L.Log self.new ≡ step B.Book.meaning (Change leader voters) (state_of B.Book L.Log self.old) }
        ensures outcome { let before = state_of B.Book L.Log self.old in result ≡ settled (change_refusal leader voters before) (changed voters before) }
    {
        self.allows(leader, voters)?;
        let kept = self.recover(voters);
        let jobs = self.jobs.len();
        self.boxes[leader as usize].pool = kept;
        self.waiting.refill(&kept, jobs);
        self.leader = leader;
        self.epoch += 1;
        Ok(Changed {
            epoch: self.epoch,
            recovered: kept.size(jobs) as u32,
        })
    }
}
