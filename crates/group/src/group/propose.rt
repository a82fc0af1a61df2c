ghost use Rattle.std.specs.Prelude.{◌≡◌};
ghost use Rattle.terms.specs.declared.calls.Call.TheVariants.{Propose};
ghost use Rattle.protocol.specs.Outcomes.{settled};
ghost use Rattle.protocol.specs.Refusals.{propose_refusal};
ghost use Rattle.protocol.specs.Histories.{step};
ghost use Rattle.group.specs.View.{state_of};

use crate::group::Group;
use crate::job::Job;
use crate::messages::send_all;
use base::{Fault, Layer, Record, Refusal};
use books::Book;
use logs::Log;

impl<B: Book, L: Log> Group<B, L> {
    // A new job: its request goes to every box. Tells the job's number.
    pub fn propose(&mut self, record: Record) -> Result<u32, Fault>
        ensures state { state_of B.Book L.Log self.new ≡ step B.Book.meaning (Propose «record») (state_of B.Book L.Log self.old) }
        ensures outcome { let before = state_of B.Book L.Log self.old in result ≡ settled (propose_refusal (B.Book.meaning.misfit «record») before) before.jobs.count }
    {
        B::check(record)?;
        let job = self.jobs.len();
        if job >= L::capacity().min(256) {
            return Err(Fault::of(Refusal::Full, Layer::Group));
        }
        let number = job as u8;
        self.jobs.push_reserved(Job::new(record));
        send_all(&mut self.boxes, |at| at.send_request(number));
        Ok(number as u32)
    }
}
