ghost use Rattle.std.specs.Prelude.{◌≡◌};
ghost use Rattle.terms.specs.declared.calls.Call.TheVariants.{Notice};
ghost use Rattle.protocol.specs.Outcomes.{settled};
ghost use Rattle.protocol.specs.Refusals.{notice_refusal};
ghost use Rattle.protocol.specs.Steps.{note, pool_size};
ghost use Rattle.protocol.specs.Histories.{step};
ghost use Rattle.group.specs.View.{state_of};

use crate::group::Group;
use base::{Fault, Layer, Refusal};
use books::Book;
use logs::Log;

impl<B: Book, L: Log> Group<B, L> {
    // The box takes its notice of the job, which leaves its pool. Tells how many jobs the pool holds then.
    pub fn notice(&mut self, replica: u32, job: u32) -> Result<u32, Fault>
        ensures state { state_of B.Book L.Log self.new ≡ step B.Book.meaning (Notice replica job) (state_of B.Book L.Log self.old) }
        ensures outcome { let before = state_of B.Book L.Log self.old in result ≡ settled (notice_refusal replica job before) (pool_size (note replica job before) replica) }
    {
        let message = self.named(replica, job)?;
        let at = &mut self.boxes[message.replica];
        if !at.notices.has(message.job as usize) {
            return Err(Fault::of(Refusal::NotInTransit, Layer::Group));
        }
        at.take_notice(message.job);
        Ok(at.pool.size(self.jobs.len()) as u32)
    }
}
