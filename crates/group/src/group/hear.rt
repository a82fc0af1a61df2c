ghost use Rattle.std.specs.Prelude.{◌≡◌};
ghost use Rattle.terms.specs.declared.calls.Call.TheVariants.{Hear};
ghost use Rattle.protocol.specs.Outcomes.{settled};
ghost use Rattle.protocol.specs.Refusals.{hear_refusal};
ghost use Rattle.protocol.specs.Steps.{phase_after};
ghost use Rattle.protocol.specs.Histories.{step};
ghost use Rattle.group.specs.View.{state_of};

use crate::group::Group;
use base::{Fault, Layer, Refusal};
use books::Book;
use logs::Log;
use terms::Phase;

impl<B: Book, L: Log> Group<B, L> {
    // The box's answer comes to the job's client. Tells the phase then.
    pub fn hear(&mut self, replica: u32, job: u32) -> Result<Phase, Fault>
        ensures state { state_of B.Book L.Log self.new ≡ step B.Book.meaning (Hear replica job) (state_of B.Book L.Log self.old) }
        ensures outcome { let before = state_of B.Book L.Log self.old in result ≡ settled (hear_refusal replica job before) (phase_after before replica job) }
    {
        let message = self.named(replica, job)?;
        let it = &mut self.jobs[message.job as usize];
        let Some(reply) = it.in_transit(message.replica) else {
            return Err(Fault::of(Refusal::NotInTransit, Layer::Group));
        };
        it.hear(message.replica, reply, self.boxes.len());
        Ok(it.phase)
    }
}
