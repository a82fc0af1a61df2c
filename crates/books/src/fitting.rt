ghost use Rattle.std.specs.Prelude.{◌≡◌, false, is_some};
ghost use Rattle.base.specs.Meaning.{Meaning};
ghost use Rattle.books.specs.Fitting.{for_fitting, Fair};
ghost use Rattle.books.specs.FittingLemmas.{fitting_laws};

use crate::book::Book;
use base::Record;

// What a book does with the records that fit it.
pub(crate) trait Table: Sized {
    ghost State: { Type 0 };

    ghost state: { Self → State };

    ghost meaning: { Meaning State };

    // The one starting state.
    fn blank() -> Self
        ensures { state result ≡ meaning.initial };

    // The first field of the record that is wrong, if any.
    fn misfit(job: Record) -> Option<u8>
        ensures { result ≡ meaning.misfit job };

    // Whether two records are in each other's way.
    fn meet(a: Record, b: Record) -> bool
        requires first { is_some (meaning.misfit a) ≡ false }
        requires second { is_some (meaning.misfit b) ≡ false }
        ensures { result ≡ meaning.clashes a b };

    // The record's result in the present state.
    fn tell(&self, job: Record) -> u32
        requires { is_some (meaning.misfit job) ≡ false }
        ensures { result ≡ meaning.result (state self.now) job };

    // The same, and the next state.
    fn enter(&mut self, job: Record) -> u32
        requires { is_some (meaning.misfit job) ≡ false }
        ensures value { result ≡ meaning.result (state self.old) job }
        ensures after { state self.new ≡ meaning.after (state self.old) job };

    ghost fair: { Fair meaning };
}

// The book of a table. A record that does not fit clashes with nothing, has result 0 and moves nothing.
#[derive(Drop)]
pub struct Fitting<T> {
    table: T,
}

impl<T: Table> Book for Fitting<T> {
    ghost State = { T.Table.State };

    ghost state = { λ b. T.Table.state b.table };

    ghost meaning = { for_fitting T.Table.meaning };

    ghost lawful = { fitting_laws T.Table.meaning T.Table.fair };

    fn fresh() -> Fitting<T> {
        Fitting { table: T::blank() }
    }

    fn fits(job: Record) -> Option<u8> {
        T::misfit(job)
    }

    fn clash(a: Record, b: Record) -> bool {
        if T::misfit(a).is_some() || T::misfit(b).is_some() {
            return false;
        }
        T::meet(a, b)
    }

    // As in a pair, `look` reads and `apply` changes, so the two stay two.
    fn look(&self, job: Record) -> u32 {
        if T::misfit(job).is_some() {
            return 0;
        }
        self.table.tell(job)
    }

    fn apply(&mut self, job: Record) -> u32 {
        if T::misfit(job).is_some() {
            return 0;
        }
        self.table.enter(job)
    }
}
