ghost use Rattle.std.specs.Prelude.{◌≡◌};
ghost use Rattle.protocol.specs.Reported.{quorums};
ghost use Rattle.protocol.specs.Counts.{tolerated, electing, confirming, recovering, blocking_number};

// How many of `size` boxes may fail.
pub fn faults(size: u32) -> u32
    ensures { result ≡ tolerated size }
{
    size / 2
}

// How many voters a change of leader names.
pub fn vote_quorum(size: u32) -> u32
    ensures { result ≡ electing size }
{
    faults(size) + 1
}

// How many agreeing answers of one epoch confirm a job.
pub fn fast_quorum(size: u32) -> u32
    ensures { result ≡ confirming size }
{
    let f = faults(size);
    f + (f + 1) / 2 + 1
}

// How many of the voters' pools recover a job.
pub fn recovery_quorum(size: u32) -> u32
    ensures { result ≡ recovering size }
{
    (faults(size) + 1) / 2 + 1
}

// How many answers of no rule the fast way out.
pub fn blocking(size: u32) -> u32
    ensures { result ≡ blocking_number size }
{
    size.saturating_sub(fast_quorum(size)) + 1
}

// The three counts that a new group reports.
#[derive(Clone, Copy, PartialEq, Eq, Debug)]
pub struct Quorums {
    pub fast: u32,
    pub recovery: u32,
    pub blocking: u32,
}

impl Quorums {
    pub fn among(size: u32) -> Quorums
        ensures { result ≡ quorums size }
    {
        Quorums {
            fast: fast_quorum(size),
            recovery: recovery_quorum(size),
            blocking: blocking(size),
        }
    }
}
