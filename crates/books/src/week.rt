ghost use Rattle.std.specs.Prelude.{◌≡◌, ℕ, ◌≤◌, false};
ghost use Rattle.books.specs.Weeks.{hours_of};
ghost use Rattle.books.specs.Windows.{taken_between, marked};

// Which hours of one vehicle's week are taken. Fixed memory, as every table of a book: a fresh one must not fail.
#[derive(Clone, Copy)]
pub struct Week {
    taken: [bool; Week::HOURS],
}

impl Week {
    pub const HOURS: usize = 168;

    pub(crate) fn free() -> Week
        ensures { hours_of result ≡ (λ _. false) }
    {
        Week {
            taken: [false; Week::HOURS],
        }
    }

    // How many of the hours from the first up to the end are taken.
    pub(crate) fn taken_between(&self, from: usize, end: usize) -> u32
        requires { (from ≤ end) × (end ≤ 168) }
        ensures { result ≡ taken_between (hours_of self.now) from end }
    {
        // A loop and no chain: a count of what a filter leaves takes five times as long over a whole week.
        let mut count = 0;
        for taken in &self.taken[from..end] {
            if *taken {
                count += 1;
            }
        }
        count
    }

    // Makes these hours as `taken` says, all taken or all free: what is written, and no choice of a step.
    pub(crate) fn mark(&mut self, from: usize, end: usize, taken: bool)
        requires { (from ≤ end) × (end ≤ 168) }
        ensures { hours_of self.new ≡ marked (hours_of self.old) from end taken }
    {
        self.taken[from..end].fill(taken);
    }
}
