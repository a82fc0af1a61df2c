ghost use Rattle.std.specs.Prelude.{◌≡◌, false, is_some};
ghost use Rattle.books.specs.Acts.{window_act, Decodes};
ghost use Rattle.books.specs.Weeks.{timetable_of};
ghost use Rattle.books.specs.Windows.{Timetable, timetables, windows_misfit, with_hours};
ghost use Rattle.books.specs.WindowsLemmas.{fair_timetables};

use crate::fitting::Table;
use crate::week::Week;
use base::{Fault, Record};

// What a record does with its hours. The acts of each book have their own numbers, so this is a table and no twin.
#[derive(Clone, Copy)]
enum Act {
    Book,
    Ask,
    Free,
}

impl TryFrom<u32> for Act {
    type Error = Fault;

    ghost try_from_gives = { Decodes window_act };

    fn try_from(number: u32) -> Result<Act, Fault> {
        match number {
            0 => Ok(Act::Book),
            1 => Ok(Act::Ask),
            2 => Ok(Act::Free),
            _ => Err(Fault::misfit(Record::ACT)),
        }
    }
}

const VEHICLES: usize = 16;

// A week of hours for each vehicle, in fixed memory.
#[derive(Drop)]
pub struct WindowTable {
    weeks: [Week; VEHICLES],
}

fn free_weeks() -> [Week; VEHICLES]
    ensures { timetable_of result ≡ (λ _ _. false) }
{
    [Week::free(); VEHICLES]
}

impl WindowTable {
    // Makes the hours of a record that fits all taken, or all free.
    fn mark(&mut self, job: Record, taken: bool)
        requires { is_some (windows_misfit job) ≡ false }
        ensures { timetable_of self.new.weeks ≡ with_hours (timetable_of self.old.weeks) job taken }
    {
        let week = &mut self.weeks[job.x as usize];
        week.mark(job.y as usize, job.z as usize, taken);
    }
}

impl Table for WindowTable {
    ghost State = { Timetable };

    ghost state = { λ w. timetable_of w.weeks };

    ghost meaning = { timetables };

    ghost fair = { fair_timetables };

    fn blank() -> WindowTable {
        WindowTable {
            weeks: free_weeks(),
        }
    }

    fn misfit(job: Record) -> Option<u8> {
        if job.book > 0 {
            Some(Record::BOOK)
        } else if Act::try_from(job.act).is_err() {
            Some(Record::ACT)
        } else if job.x as usize >= VEHICLES {
            Some(Record::X)
        } else if job.y as usize >= Week::HOURS {
            Some(Record::Y)
        } else if job.z <= job.y || job.z as usize > Week::HOURS {
            Some(Record::Z)
        } else {
            None
        }
    }

    fn meet(a: Record, b: Record) -> bool {
        a.x == b.x && a.y < b.z && b.y < a.z
    }

    // How many hours are taken, where they are to be freed; else 1 where all are free, and 0 where one is taken.
    fn tell(&self, job: Record) -> u32 {
        let week = &self.weeks[job.x as usize];
        let taken = week.taken_between(job.y as usize, job.z as usize);
        match Act::try_from(job.act) {
            Ok(Act::Free) => taken,
            _ => u32::from(taken == 0),
        }
    }

    fn enter(&mut self, job: Record) -> u32 {
        let told = self.tell(job);
        match Act::try_from(job.act) {
            Ok(Act::Book) if told == 1 => self.mark(job, true),
            Ok(Act::Free) => self.mark(job, false),
            _ => {}
        }
        told
    }
}
