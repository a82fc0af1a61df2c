ghost use Rattle.std.specs.Prelude.{◌≡◌, ◌+◌, Some, None, Option, MatchOption};
ghost use Rattle.lines.specs.Faults.{bad_field};
ghost use Rattle.lines.specs.Fields.{Moves, flag_field, number_field, set_field, left};
ghost use Rattle.lines.specs.Forms.{back, front, tabs};

use crate::fault::bad_field;
use crate::number::number;
use crate::set::set;
use base::Fault;
use terms::Voters;

// A field of a line: its bytes, and its place, 1 for the letter. By a rule of this project a field is kept as a part of
// its line and taken by `let .. else`.
#[derive(Clone, Copy)]
pub(crate) enum Field<'a> {
    Letter(&'a [u8], u8),
    Number(&'a [u8], u8),
    Set(&'a [u8], u8),
}

// The first field, and what comes after its tab.
fn cut(bytes: &[u8]) -> (&[u8], &[u8])
    ensures front { result.0.now ≡ front bytes.now }
    ensures back { result.1.now ≡ back bytes.now }
{
    match bytes.iter().position(|b| *b == b'\t') {
        Some(n) => (&bytes[..n], &bytes[n + 1..]),
        None => (bytes, &[]),
    }
}

// How many fields the bytes have.
pub(crate) fn count(bytes: &[u8]) -> usize
    ensures { result ≡ 1 + tabs bytes.now }
{
    1 + bytes
        .iter()
        .map(|b| usize::from(*b == b'\t'))
        .sum::<usize>()
}

// What is left of a line, and the place of the field that was taken last.
#[derive(Clone, Copy)]
pub(crate) struct Rest<'a> {
    bytes: &'a [u8],
    place: u8,
}

impl<'a> Rest<'a> {
    // All the fields of a line.
    pub(crate) fn whole(bytes: &'a [u8]) -> Rest<'a>
        ensures bytes { left result ≡ bytes.now }
        ensures place { result.place ≡ 0 }
    {
        Rest { bytes, place: 0 }
    }

    // The fields after the letter.
    pub(crate) fn after_letter(bytes: &'a [u8]) -> Rest<'a>
        ensures bytes { left result ≡ bytes.now }
        ensures place { result.place ≡ 1 }
    {
        Rest { bytes, place: 1 }
    }

    pub(crate) fn bytes(&self) -> &'a [u8]
        ensures { result.now ≡ left self.now }
    {
        self.bytes
    }

    // The bytes of the next field, which is then taken.
    fn next(&mut self) -> &'a [u8]
        ensures front { result.now ≡ front (left self.old) }
        ensures moves { Moves self.old self.new }
    {
        let (front, back) = cut(self.bytes);
        self.bytes = back;
        self.place = self.place.saturating_add(1);
        front
    }

    // The next field as `case` makes it of its bytes and its place, and the value that `read` finds in the bytes.
    pub(crate) fn take<T, R: FnOnce(&[u8]) -> Option<T>, M: FnOnce(&'a [u8], u8) -> Field<'a>>(
        &mut self,
        read: R,
        case: M,
    ) -> Option<(Field<'a>, T)>
        requires read { R.IsAlwaysCallable read }
        requires case { M.IsAlwaysCallable case }
        ensures field { (b : _) × (b.now ≡ front (left self.old)) × (found : Option T) × R.post read b found
            × MatchOption result (found ≡ None) (λ taken. (found ≡ Some taken.1) × M.post case b self.new.place taken.0) }
        ensures moves { Moves self.old self.new }
    {
        let bytes = self.next();
        let value = read(bytes)?;
        Some((case(bytes, self.place), value))
    }

    // The fault of the field that was taken last.
    fn fault(&self) -> Fault
        ensures { result ≡ bad_field self.now.place }
    {
        bad_field(self.place)
    }

    // The next field as a number, or its fault.
    pub(crate) fn number(&mut self) -> Result<u32, Fault>
        ensures value { result ≡ number_field (left self.old) self.new.place }
        ensures moves { Moves self.old self.new }
    {
        let Some((Field::Number(..), n)) = self.take(number, Field::Number) else {
            return Err(self.fault());
        };
        Ok(n)
    }

    // The next field as a flag, 0 or 1, or its fault.
    pub(crate) fn flag(&mut self) -> Result<bool, Fault>
        ensures value { result ≡ flag_field (left self.old) self.new.place }
        ensures moves { Moves self.old self.new }
    {
        let Some((Field::Number(_, place), n)) = self.take(number, Field::Number) else {
            return Err(self.fault());
        };
        match n {
            0 => Ok(false),
            1 => Ok(true),
            _ => Err(bad_field(place)),
        }
    }

    // The next field as a set of voters, or its fault.
    pub(crate) fn voters(&mut self) -> Result<Voters, Fault>
        ensures value { result ≡ set_field (left self.old) self.new.place }
        ensures moves { Moves self.old self.new }
    {
        let Some((Field::Set(..), voters)) = self.take(set, Field::Set) else {
            return Err(self.fault());
        };
        Ok(voters)
    }
}
