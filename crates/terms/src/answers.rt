ghost use Rattle.std.specs.Prelude.{◌≡◌};
ghost use Rattle.terms.specs.Written.{phase_number, phase_letter, told_of};

// A box's reply to a job, with the epoch it was given in. Told is a leader's yes: it bears the result.
#[derive(Clone, Copy, PartialEq, Eq, Debug)]
pub enum Reply {
    No { epoch: u32 },
    Yes { epoch: u32 },
    Told { epoch: u32, result: u32 },
}

// A box's answer to a job: none yet, on its way to the client, or heard.
#[derive(Clone, Copy, PartialEq, Eq, Debug)]
pub enum Answer {
    Empty,
    Transit(Reply),
    Heard(Reply),
}

// Where the client stands with a job. Fast: confirmed, with the told result and the epoch that confirmed it.
#[derive(Clone, Copy, PartialEq, Eq, Debug)]
pub enum Phase {
    Waiting,
    Slow,
    Fast { result: u32, epoch: u32 },
}

impl Phase {
    // The result that a confirmed job's client was told.
    pub fn told(self) -> Option<u32>
        ensures { result ≡ told_of self }
    {
        match self {
            Phase::Fast { result, .. } => Some(result),
            _ => None,
        }
    }
}

impl From<Phase> for u8 {
    ghost from_gives = { λ phase number. number ≡ phase_number phase };

    fn from(phase: Phase) -> u8 {
        match phase {
            Phase::Waiting => 0,
            Phase::Slow => 1,
            Phase::Fast { .. } => 2,
        }
    }
}

// The letter that a report has for the phase. Each enum has its own letters, so this is a table and no twin.
impl From<Phase> for char {
    ghost from_gives = { λ phase letter. letter ≡ phase_letter phase };

    fn from(phase: Phase) -> char {
        match phase {
            Phase::Waiting => 'w',
            Phase::Slow => 's',
            Phase::Fast { .. } => 'f',
        }
    }
}
