ghost use Rattle.std.specs.Prelude.{◌≡◌};
ghost use Rattle.protocol.specs.Histories.{step};
ghost use Rattle.group.specs.View.{state_of};
ghost use Rattle.week.specs.Runs.{outcome};

use crate::event::Outcome;
use base::Fault;
use books::Book;
use group::Group;
use logs::Log;
use terms::Call;

// Makes the call on the group, and tells what came of it.
pub fn perform<B: Book, L: Log>(group: &mut Group<B, L>, call: Call) -> Result<Outcome, Fault>
    ensures state { state_of B.Book L.Log group.new ≡ step B.Book.meaning call (state_of B.Book L.Log group.old) }
    ensures value { result ≡ outcome B.Book.meaning call (state_of B.Book L.Log group.old) }
{
    match call {
        Call::Propose(record) => group.propose(record).map(Outcome::Proposed),
        Call::Receive { replica, job } => group.receive(replica, job).map(Outcome::Received),
        Call::Hear { replica, job } => group.hear(replica, job).map(Outcome::Heard),
        Call::Sync => group.sync().map(Outcome::Synced),
        Call::Notice { replica, job } => group.notice(replica, job).map(Outcome::Noticed),
        Call::Change { leader, voters } => group.change(leader, voters).map(Outcome::Changed),
        Call::Query { job } => group.query(job).map(Outcome::Queried),
    }
}
