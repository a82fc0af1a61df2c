ghost use Rattle.std.specs.Prelude.{◌≡◌, ℕ, ◌≤◌, List, [], length};
ghost use Rattle.base.specs.Faults.{log_full};
ghost use Rattle.logs.specs.Entries.{added, added_outcome, at_place};

use base::{Fault, Layer, Refusal};

// A log by its meaning: a list of numbers, and a capacity that the kind of log fixes.
pub trait Log: Sized {
    ghost limit: { ℕ };

    ghost entries: { Self → List ℕ };

    fn fresh() -> Self
        ensures { entries result ≡ [] };

    // One number more at the end; refused where the log is full.
    fn add(&mut self, number: u16) -> Result<(), Fault>
        ensures value { result ≡ added_outcome limit (entries self.old) }
        ensures after { entries self.new ≡ added limit (entries self.old) number };

    // How many numbers there are, never more than the capacity.
    fn length(&self) -> usize
        ensures value { result ≡ length (entries self.now) }
        ensures bound { result ≤ limit };

    fn capacity() -> usize
        ensures { result ≡ limit };

    // The number at a place, counted from 1; none at 0 and beyond the length.
    fn get(&self, place: usize) -> Option<u16>
        ensures { result ≡ at_place (entries self.now) place };

    ghost bounded: { limit ≤ 4096 };
}

// What a full log answers.
pub(crate) fn full() -> Fault
    ensures { result ≡ log_full }
{
    Fault::of(Refusal::Full, Layer::Log)
}
