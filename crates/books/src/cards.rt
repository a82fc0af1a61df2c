ghost use Rattle.std.specs.Prelude.{◌≡◌};
ghost use Rattle.books.specs.Acts.{card_act, Decodes};
ghost use Rattle.books.specs.Cards.{Slots, slots_of, slots, largest_value};
ghost use Rattle.books.specs.CardsLemmas.{fair_slots};

use crate::fitting::Table;
use base::{Fault, Record};

// What a record does with its slot.
#[derive(Clone, Copy)]
enum Act {
    Read,
    Write,
    Clear,
}

impl TryFrom<u32> for Act {
    type Error = Fault;

    ghost try_from_gives = { Decodes card_act };

    fn try_from(number: u32) -> Result<Act, Fault> {
        match number {
            0 => Ok(Act::Read),
            1 => Ok(Act::Write),
            2 => Ok(Act::Clear),
            _ => Err(Fault::misfit(Record::ACT)),
        }
    }
}

impl Act {
    // Only a write takes a value.
    fn largest_value(self) -> u32
        ensures { result ≡ largest_value (card_act self) }
    {
        match self {
            Act::Write => LARGEST_VALUE,
            Act::Read | Act::Clear => 0,
        }
    }
}

const SLOTS: usize = 256;

const LARGEST_VALUE: u32 = 999_999;

// A value in each slot, in fixed memory.
#[derive(Drop)]
pub struct CardTable {
    values: [u32; SLOTS],
}

fn empty_slots() -> [u32; SLOTS]
    ensures { slots_of result ≡ (λ _. 0) }
{
    [0; SLOTS]
}

impl Table for CardTable {
    ghost State = { Slots };

    ghost state = { λ c. slots_of c.values };

    ghost meaning = { slots };

    ghost fair = { fair_slots };

    fn blank() -> CardTable {
        CardTable {
            values: empty_slots(),
        }
    }

    fn misfit(job: Record) -> Option<u8> {
        if job.book > 0 {
            return Some(Record::BOOK);
        }
        let Ok(act) = Act::try_from(job.act) else {
            return Some(Record::ACT);
        };
        if job.x as usize >= SLOTS {
            Some(Record::X)
        } else if job.y > act.largest_value() {
            Some(Record::Y)
        } else if job.z > 0 {
            Some(Record::Z)
        } else {
            None
        }
    }

    fn meet(a: Record, b: Record) -> bool {
        a.x == b.x
    }

    // The slot's value.
    fn tell(&self, job: Record) -> u32 {
        self.values[job.x as usize]
    }

    fn enter(&mut self, job: Record) -> u32 {
        let slot = job.x as usize;
        let before = self.values[slot];
        match Act::try_from(job.act) {
            Ok(Act::Write) => self.values[slot] = job.y,
            Ok(Act::Clear) => self.values[slot] = 0,
            _ => {}
        }
        before
    }
}
