ghost use Rattle.std.specs.Prelude.{◌≡◌, ℕ, ◌≤◌, ◌<◌, true, false};
ghost use Rattle.group.specs.Sets.{has};
ghost use Rattle.terms.specs.Tests.{put, tally};

// A set of jobs, by their numbers.
// No generic set of flags with `Voters`: that one is built by value from any digits of a line, this one changes in place by a `u8`.
#[derive(Clone, Copy)]
pub(crate) struct JobSet {
    members: [bool; 256],
}

impl JobSet {
    pub(crate) fn none() -> JobSet
        ensures { (c : ℕ) → has result c ≡ false }
    {
        JobSet {
            members: [false; 256],
        }
    }

    pub(crate) fn has(&self, job: usize) -> bool
        ensures { result ≡ has self.now job }
    {
        self.members.get(job).copied().unwrap_or(false)
    }

    pub(crate) fn insert(&mut self, job: u8)
        ensures { (c : ℕ) → has self.new c ≡ put (has self.old) job true c }
    {
        self.members[job as usize] = true;
    }

    pub(crate) fn remove(&mut self, job: u8)
        ensures { (c : ℕ) → has self.new c ≡ put (has self.old) job false c }
    {
        self.members[job as usize] = false;
    }

    // How many of the jobs below `count` are in it.
    pub(crate) fn size(&self, count: usize) -> usize
        ensures members { result ≡ tally count (has self.now) }
        ensures bound { result ≤ count }
    {
        (0..count).filter(|job| self.has(*job)).count()
    }
}
