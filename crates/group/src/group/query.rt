ghost use Rattle.std.specs.Prelude.{◌≡◌};
ghost use Rattle.protocol.specs.Outcomes.{settled};
ghost use Rattle.protocol.specs.Reported.{quorums};
ghost use Rattle.protocol.specs.Refusals.{query_refusal};
ghost use Rattle.protocol.specs.Steps.{status};
ghost use Rattle.protocol.specs.Promise.{Reached, Kept};
ghost use Rattle.group.specs.View.{state_of};

use crate::group::Group;
use crate::group::reads::place_in;
use base::{Fault, Layer, Refusal};
use books::Book;
use logs::Log;
use protocol::Quorums;
use terms::Status;

impl<B: Book, L: Log> Group<B, L> {
    // Where a job stands: its phase, the told result of a confirmed one, its place in the log, the given result.
    // In a group that calls led to, what is promised of confirmed jobs holds of it.
    pub fn query(&self, job: u32) -> Result<Status, Fault>
        ensures promise { let now = state_of B.Book L.Log self.now in Reached B.Book.meaning L.Log.limit now → Kept B.Book.meaning now }
        ensures outcome { let now = state_of B.Book L.Log self.now in result ≡ settled (query_refusal job now) (status job now) }
    {
        let Some(it) = self.jobs.get(job as usize) else {
            return Err(Fault::of(Refusal::NoJob, Layer::Group));
        };
        Ok(Status {
            phase: it.phase,
            told: it.phase.told(),
            place: place_in(&self.log, job),
            given: it.given,
        })
    }

    // How many answers confirm a job, how many pools recover one, how many refusals rule the fast way out.
    pub fn quorums(&self) -> Quorums
        ensures { result ≡ quorums (state_of B.Book L.Log self.now).fixed.size }
    {
        Quorums::among(self.boxes.len() as u32)
    }
}
