ghost use Rattle.std.specs.Prelude.{◌≡◌, ◌*◌, ◌≤◌, true, length};
ghost use Rattle.std.proofs.Common.{lit≤};
ghost use Rattle.arrayvec.specs.ArrayString.{array_string_len};
ghost use Rattle.logs.specs.Lines.{lines_of, numbers_in, all_fit};

use crate::Log;
use crate::log::full;
use arrayvec::ArrayString;
use base::Fault;
use itoa::Buffer;

// How many numbers there is room for, each in six bytes at most.
const ROOM: usize = 100;

// Numbers as decimal lines, and how many: to count them in the text would take its length for each addition.
#[derive(Drop)]
pub struct LineLog {
    text: ArrayString<600>,
    count: usize,
    ghost counted: { count ≡ length (numbers_in text.bytes) },
    ghost room: { count ≤ 100 },
    ghost short: { array_string_len text ≤ 6 * count },
    ghost written: { text.bytes ≡ lines_of (numbers_in text.bytes) },
    ghost fit: { all_fit (numbers_in text.bytes) ≡ true },
}

impl LineLog {
    // The numbers as they stand: each one's digits and byte 10, one after the other.
    pub fn text(&self) -> &[u8]
        ensures { result.now ≡ lines_of (numbers_in self.now.text.bytes) }
    {
        self.text.as_bytes()
    }
}

impl Log for LineLog {
    ghost limit = { 100 };

    ghost entries = { λ s. numbers_in s.text.bytes };

    ghost bounded = { lit≤ tt };

    fn fresh() -> LineLog {
        LineLog {
            text: ArrayString::new(),
            count: 0,
        }
    }

    fn add(&mut self, number: u16) -> Result<(), Fault> {
        if self.count == ROOM {
            return Err(full());
        }
        self.text.push_str(Buffer::new().format(number));
        self.text.push('\n');
        self.count += 1;
        Ok(())
    }

    fn length(&self) -> usize {
        self.count
    }

    fn capacity() -> usize {
        ROOM
    }

    fn get(&self, place: usize) -> Option<u16> {
        if place > self.count {
            return None;
        }
        let line = self.text.lines().nth(place.checked_sub(1)?)?;
        line.parse().ok()
    }
}
