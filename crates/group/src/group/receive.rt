ghost use Rattle.std.specs.Prelude.{◌≡◌, ◌==◌};
ghost use Rattle.terms.specs.declared.calls.Call.TheVariants.{Receive};
ghost use Rattle.protocol.specs.Outcomes.{settled};
ghost use Rattle.protocol.specs.Refusals.{receive_refusal};
ghost use Rattle.protocol.specs.Steps.{received, drops, pools, reply, verdict, take};
ghost use Rattle.protocol.specs.Histories.{step};
ghost use Rattle.group.specs.View.{state_of, Named};

use crate::group::Group;
use crate::messages::Message;
use base::{Fault, Layer, Refusal};
use books::Book;
use logs::Log;
use terms::{Received, Reply};

impl<B: Book, L: Log> Group<B, L> {
    // The box is the leader.
    fn leads(&self, replica: usize) -> bool
        ensures { result ≡ (replica == self.now.leader) }
    {
        replica == self.leader as usize
    }

    // The box has taken the job's notice, or leads and the job is in the log.
    fn drops(&self, message: Message) -> bool
        ensures { result ≡ drops (state_of B.Book L.Log self.now) message.replica message.job }
    {
        self.has_taken(message) || (self.leads(message.replica) && self.logged(message.job as u32))
    }

    // The job joins the box's pool.
    fn pools(&self, message: Message) -> bool
        ensures { result ≡ pools B.Book.meaning (state_of B.Book L.Log self.now) message.replica message.job }
    {
        self.fast && !self.pool_meets(message)
    }

    // What the box answers; a leader's yes bears the result.
    fn reply(&self, message: Message) -> Reply
        ensures { result ≡ reply B.Book.meaning (state_of B.Book L.Log self.now) message.replica message.job }
    {
        let epoch = self.epoch;
        if !self.pools(message) {
            return Reply::No { epoch };
        }
        if !self.leads(message.replica) {
            return Reply::Yes { epoch };
        }
        let job = message.job as usize;
        if self.waiting_meets(job) {
            return Reply::No { epoch };
        }
        let result = self.book.look(self.record_of(job));
        Reply::Told { epoch, result }
    }

    // The box takes the request: it pools the job or not, the leader puts it in line, and an answer goes out.
    fn take(&mut self, message: Message) -> Received
        requires { Named message.replica message.job self.old }
        ensures state { state_of B.Book L.Log self.new ≡ take B.Book.meaning message.replica message.job (state_of B.Book L.Log self.old) }
        ensures outcome { result ≡ verdict (reply B.Book.meaning (state_of B.Book L.Log self.old) message.replica message.job) }
    {
        let Message { replica, job } = message;
        let reply = self.reply(message);
        let joins = self.pools(message);
        self.boxes[replica].take_request(job, joins);
        self.jobs[job as usize].answer(replica, reply);
        if self.leads(replica) {
            self.waiting.join(job);
        }
        Received::from(reply)
    }

    // The box takes its request for the job, and answers or drops it. Tells which.
    pub fn receive(&mut self, replica: u32, job: u32) -> Result<Received, Fault>
        ensures state { state_of B.Book L.Log self.new ≡ step B.Book.meaning (Receive replica job) (state_of B.Book L.Log self.old) }
        ensures outcome { let before = state_of B.Book L.Log self.old in result ≡ settled (receive_refusal replica job before) (received B.Book.meaning replica job before) }
    {
        let message = self.named(replica, job)?;
        if !self.boxes[message.replica]
            .requests
            .has(message.job as usize)
        {
            return Err(Fault::of(Refusal::NotInTransit, Layer::Group));
        }
        if self.drops(message) {
            self.boxes[message.replica].drop_request(message.job);
            return Ok(Received::Dropped);
        }
        Ok(self.take(message))
    }
}
