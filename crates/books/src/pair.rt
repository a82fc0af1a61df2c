ghost use Rattle.std.specs.Prelude.{◌≡◌};
ghost use Rattle.books.specs.Pairs.{lower, paired};
ghost use Rattle.books.specs.PairsLemmas.{paired_laws};

use crate::book::Book;
use base::Record;

// Two books as one: book number 0 is the left one's, any other the right one's, lowered by 1.
#[derive(Drop)]
pub struct Pair<A, B> {
    left: A,
    right: B,
}

// The record as the right book sees it.
fn lowered(job: Record) -> Record
    ensures { result ≡ lower job }
{
    Record {
        book: job.book.saturating_sub(1),
        ..job
    }
}

impl<A: Book, B: Book> Book for Pair<A, B> {
    ghost State = { A.Book.State × B.Book.State };

    ghost state = { λ p. (A.Book.state p.left, B.Book.state p.right) };

    ghost meaning = { paired A.Book.meaning B.Book.meaning };

    ghost lawful = { paired_laws A.Book.meaning B.Book.meaning A.Book.lawful B.Book.lawful };

    fn fresh() -> Pair<A, B> {
        Pair {
            left: A::fresh(),
            right: B::fresh(),
        }
    }

    fn fits(job: Record) -> Option<u8> {
        if job.book == 0 {
            A::fits(job)
        } else {
            B::fits(lowered(job))
        }
    }

    fn clash(a: Record, b: Record) -> bool {
        if a.book == 0 && b.book == 0 {
            return A::clash(a, b);
        }
        if a.book == 0 || b.book == 0 {
            return false;
        }
        B::clash(lowered(a), lowered(b))
    }

    // `look` and `apply` stay two: one reads a side and the other changes it, and no text is generic over that.
    fn look(&self, job: Record) -> u32 {
        if job.book == 0 {
            self.left.look(job)
        } else {
            self.right.look(lowered(job))
        }
    }

    fn apply(&mut self, job: Record) -> u32 {
        if job.book == 0 {
            self.left.apply(job)
        } else {
            self.right.apply(lowered(job))
        }
    }
}
