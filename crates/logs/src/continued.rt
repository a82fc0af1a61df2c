ghost use Rattle.logs.specs.Continuing.{continued, joint};
ghost use Rattle.std.specs.Prelude.{◌+◌};
ghost use Rattle.std.proofs.Math.Nat.{min-le_right};

use crate::Log;
use crate::log::full;
use base::Fault;

// A log that fills `first`, and then `second`.
// What `second` holds does not count before `first` is full.
#[derive(Drop)]
pub struct Continued<A, B> {
    first: A,
    second: B,
}

// However much the two can hold, no more is taken.
const MOST: usize = 4096;

impl<A: Log, B: Log + Drop> Log for Continued<A, B> {
    ghost limit = { joint A.Log.limit B.Log.limit };

    ghost entries = { λ s. continued A.Log.limit (A.Log.entries s.first) (B.Log.entries s.second) };

    ghost bounded = { min-le_right (A.Log.limit + B.Log.limit) 4096 };

    fn fresh() -> Continued<A, B> {
        Continued {
            first: A::fresh(),
            second: B::fresh(),
        }
    }

    fn add(&mut self, number: u16) -> Result<(), Fault> {
        if self.first.length() < A::capacity() {
            self.second = B::fresh();
            return self.first.add(number);
        }
        if self.length() == Self::capacity() {
            return Err(full());
        }
        self.second.add(number)
    }

    fn length(&self) -> usize {
        let first = self.first.length();
        if first < A::capacity() {
            return first;
        }
        (first + self.second.length()).min(MOST)
    }

    fn capacity() -> usize {
        (A::capacity() + B::capacity()).min(MOST)
    }

    fn get(&self, place: usize) -> Option<u16> {
        let first = self.first.length();
        if place <= first {
            return self.first.get(place);
        }
        if place > self.length() {
            return None;
        }
        self.second.get(place - first)
    }
}
