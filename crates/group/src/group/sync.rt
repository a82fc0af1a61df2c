ghost use Rattle.std.specs.Prelude.{◌≡◌};
ghost use Rattle.terms.specs.declared.calls.Call.TheVariants.{Sync};
ghost use Rattle.protocol.specs.Outcomes.{settled};
ghost use Rattle.protocol.specs.Refusals.{sync_refusal};
ghost use Rattle.protocol.specs.Steps.{synced};
ghost use Rattle.protocol.specs.Histories.{step};
ghost use Rattle.group.specs.View.{state_of};

use crate::group::Group;
use crate::messages::send_all;
use base::{Fault, Layer, Refusal};
use books::Book;
use logs::Log;
use terms::Synced;

impl<B: Book, L: Log> Group<B, L> {
    // The head of the waiting list goes to the log and is applied; a notice goes to every box. Tells job and result.
    pub fn sync(&mut self) -> Result<Synced, Fault>
        ensures state { state_of B.Book L.Log self.new ≡ step B.Book.meaning Sync (state_of B.Book L.Log self.old) }
        ensures outcome { let before = state_of B.Book L.Log self.old in result ≡ settled (sync_refusal before.lead.waiting before) (synced B.Book.meaning before.lead.waiting before) }
    {
        let Some(head) = self.waiting.head() else {
            return Err(Fault::of(Refusal::NothingWaits, Layer::Group));
        };
        self.log.add(head as u16)?;
        let it = &mut self.jobs[head as usize];
        let result = self.book.apply(it.record);
        it.given = Some(result);
        self.waiting.advance();
        send_all(&mut self.boxes, |at| at.send_notice(head));
        Ok(Synced {
            job: head as u32,
            result,
        })
    }
}
