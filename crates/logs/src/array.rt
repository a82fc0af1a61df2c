ghost use Rattle.std.proofs.Common.{lit≤};

use crate::Log;
use crate::log::full;
use arrayvec::ArrayVec;
use base::Fault;

// How many numbers there is room for.
const ROOM: usize = 128;

// Numbers in fixed memory.
#[derive(Drop)]
pub struct ArrayLog {
    numbers: ArrayVec<u16, ROOM>,
}

impl Log for ArrayLog {
    ghost limit = { 128 };

    ghost entries = { λ s. s.numbers.items };

    ghost bounded = { lit≤ tt };

    fn fresh() -> ArrayLog {
        ArrayLog {
            numbers: ArrayVec::new(),
        }
    }

    fn add(&mut self, number: u16) -> Result<(), Fault> {
        self.numbers.try_push(number).map_err(|_| full())
    }

    fn length(&self) -> usize {
        self.numbers.len()
    }

    fn capacity() -> usize {
        ROOM
    }

    fn get(&self, place: usize) -> Option<u16> {
        self.numbers.get(place.checked_sub(1)?).copied()
    }
}
