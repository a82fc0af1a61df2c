ghost use Rattle.std.specs.Prelude.{◌≡◌};
ghost use Rattle.base.specs.Meaning.{Meaning, Laws};
ghost use Rattle.books.specs.Accepted.{accepted};

use base::{Fault, Record};

// A book of jobs, by its meaning: a state, and what each record does to it.
pub trait Book: Sized {
    ghost State: { Type 0 };

    ghost state: { Self → State };

    ghost meaning: { Meaning State };

    // The one starting state.
    fn fresh() -> Self
        ensures { state result ≡ meaning.initial };

    // The first field of the record that is wrong, if any.
    fn fits(job: Record) -> Option<u8>
        ensures { result ≡ meaning.misfit job };

    // Whether two records are in each other's way.
    fn clash(a: Record, b: Record) -> bool
        ensures { result ≡ meaning.clashes a b };

    // The record's result in the present state.
    fn look(&self, job: Record) -> u32
        ensures { result ≡ meaning.result (state self.now) job };

    // The same result, and the next state.
    fn apply(&mut self, job: Record) -> u32
        ensures value { result ≡ meaning.result (state self.old) job }
        ensures after { state self.new ≡ meaning.after (state self.old) job };

    // The record's first wrong field as a fault, for callers that pass it on by `?`.
    fn check(job: Record) -> Result<(), Fault>
        ensures { result ≡ accepted (meaning.misfit job) }
    {
        match Self::fits(job) {
            None => Ok(()),
            Some(field) => Err(Fault::misfit(field)),
        }
    }

    ghost lawful: { Laws meaning };
}
