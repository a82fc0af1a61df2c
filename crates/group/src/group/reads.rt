ghost use Rattle.std.specs.Prelude.{◌≡◌, ◌-◌, Bool, ◌&&◌, length, Some, MatchResult, ◌==◌, nat_le, slice_index};
ghost use Rattle.terms.specs.Tests.{any_below, any_of, mem};
ghost use Rattle.protocol.specs.State.{meets};
ghost use Rattle.protocol.specs.Steps.{place_after};
ghost use Rattle.protocol.specs.Refusals.{message_refusal};
ghost use Rattle.group.specs.View.{state_of, Named};

use crate::group::Group;
use crate::messages::Message;
use base::{Fault, Layer, Record, Refusal};
use books::Book;
use logs::Log;

impl<B: Book, L: Log> Group<B, L> {
    // A message names a box of the group and a job that was proposed.
    pub(super) fn named(&self, replica: u32, job: u32) -> Result<Message, Fault>
        ensures { MatchResult result (λ m. (m ≡ record { replica = replica; job = job }) × Named m.replica m.job self.now) (λ f. (b : Bool) → message_refusal replica job b (state_of B.Book L.Log self.now) ≡ Some f) }
    {
        if replica as usize >= self.boxes.len() {
            return Err(Fault::of(Refusal::NoReplica, Layer::Group));
        }
        if job as usize >= self.jobs.len() {
            return Err(Fault::of(Refusal::NoJob, Layer::Group));
        }
        Ok(Message {
            replica: replica as usize,
            job: job as u8,
        })
    }

    // The job's record; a blank one where there is no such job, as the protocol's state has it.
    pub(super) fn record_of(&self, job: usize) -> Record
        ensures { result ≡ (state_of B.Book L.Log self.now).jobs.job job }
    {
        self.jobs.get(job).map_or(Record::default(), |it| it.record)
    }

    // Two jobs meet when they are the same or their records clash.
    fn meets(&self, c: usize, d: usize) -> bool
        ensures { result ≡ meets B.Book.meaning (state_of B.Book L.Log self.now).jobs.job c d }
    {
        c == d || B::clash(self.record_of(c), self.record_of(d))
    }

    // The box's pool holds the job.
    fn pooled(&self, replica: usize, job: usize) -> bool
        ensures { result ≡ (state_of B.Book L.Log self.now).boxes.pool replica job }
    {
        self.boxes.get(replica).is_some_and(|at| at.pool.has(job))
    }

    // Some job in the box's pool meets the message's.
    pub(super) fn pool_meets(&self, message: Message) -> bool
        ensures { let now = state_of B.Book L.Log self.now in result ≡ any_below now.jobs.count (λ d. now.boxes.pool message.replica d && meets B.Book.meaning now.jobs.job message.job d) }
    {
        let Message { replica, job } = message;
        (0..self.jobs.len()).any(|d| self.pooled(replica, d) && self.meets(job as usize, d))
    }

    // Some waiting job meets this one.
    pub(super) fn waiting_meets(&self, job: usize) -> bool
        ensures { let now = state_of B.Book L.Log self.now in result ≡ any_of (meets B.Book.meaning now.jobs.job job) now.lead.waiting }
    {
        self.waiting.iter().any(|d| self.meets(job, *d as usize))
    }

    // The box has taken its notice of the job.
    pub(super) fn has_taken(&self, message: Message) -> bool
        ensures { result ≡ (state_of B.Book L.Log self.now).boxes.taken message.replica message.job }
    {
        let job = message.job as usize;
        self.boxes
            .get(message.replica)
            .is_some_and(|at| at.taken.has(job))
    }

    pub(super) fn logged(&self, job: u32) -> bool
        ensures { result ≡ mem job (state_of B.Book L.Log self.now).lead.log }
    {
        place_in(&self.log, job).is_some()
    }
}

// The log has the job at the place.
fn stands_at<L: Log>(log: &L, place: usize, job: u32) -> bool
    ensures { result ≡ (nat_le 1 place && nat_le place (length (L.Log.entries log.now)) && job == slice_index (L.Log.entries log.now) (place - 1)) }
{
    log.get(place).is_some_and(|number| job == number as u32)
}

// The job's place in the log, counted from 1.
pub(super) fn place_in<L: Log>(log: &L, job: u32) -> Option<u32>
    ensures { result ≡ place_after 0 job (L.Log.entries log.now) }
{
    (1..=log.length() as u32).find(|place| stands_at(log, *place as usize, job))
}
