ghost use Rattle.std.specs.Prelude.{◌≡◌, ◌<◌, ◌≤◌, Some, None};
ghost use Rattle.terms.specs.declared.answers.Answer.TheVariants.{Transit, Heard, Empty};
ghost use Rattle.terms.specs.declared.answers.Phase.TheVariants.{Waiting};
ghost use Rattle.terms.specs.Tests.{put};
ghost use Rattle.protocol.specs.Answers.{decide};
ghost use Rattle.group.specs.Jobs.{Holds, answer_of, transit_of};

use crate::client::decision;
use base::Record;
use terms::{Answer, Phase, Reply};

// One job: its record, every box's answer, where its client stands, and the result that the log gave.
#[derive(Clone, Copy)]
pub(crate) struct Job {
    pub record: Record,
    // Fixed memory for nine boxes; the group's size says how many are there.
    pub answers: [Answer; 9],
    pub phase: Phase,
    pub given: Option<u32>,
}

impl Job {
    pub(crate) fn new(record: Record) -> Job
        ensures { Holds result «record» (λ _. Empty) Waiting None }
    {
        Job {
            record,
            answers: [Answer::Empty; 9],
            phase: Phase::Waiting,
            given: None,
        }
    }

    // The box's reply, where it is on its way to the client.
    pub(crate) fn in_transit(&self, replica: usize) -> Option<Reply>
        ensures { result ≡ transit_of (answer_of self.now replica) }
    {
        match self.answers.get(replica) {
            Some(Answer::Transit(reply)) => Some(*reply),
            _ => None,
        }
    }

    // The box's reply is on its way to the client.
    pub(crate) fn answer(&mut self, replica: usize, reply: Reply)
        requires { replica < 9 }
        ensures { Holds self.new self.old.«record» (put (answer_of self.old) replica (Transit reply)) self.old.phase self.old.given }
    {
        self.answers[replica] = Answer::Transit(reply);
    }

    // The client has heard the reply, and decides.
    pub(crate) fn hear(&mut self, replica: usize, reply: Reply, size: usize)
        requires within { replica < size }
        requires few { size ≤ 9 }
        ensures { Holds self.new self.old.«record» (put (answer_of self.old) replica (Heard reply)) (decide size (answer_of self.new) self.old.phase) self.old.given }
    {
        self.answers[replica] = Answer::Heard(reply);
        self.phase = decision(&self.answers[..size], self.phase);
    }
}
