ghost use Rattle.std.specs.Prelude.{◌≡◌, ◌+◌, ◌≤◌};
ghost use Rattle.arrayvec.specs.ArrayString.{array_string_len};
ghost use Rattle.lines.specs.Limits.{longest};
ghost use Rattle.lines.specs.Texts.{PutNumber, PutVoters};

use crate::fault::bad_field;
use crate::limits::{LARGEST, LONGEST};
use arrayvec::ArrayString;
use base::Fault;
use itoa::Buffer;
use terms::Voters;

// A line that is being made.
pub(crate) type Text = ArrayString<LONGEST>;

// A tab and the number at `place`, of six digits at most; or the fault of that field, if the number is too large.
pub(crate) fn put_number(text: &mut Text, place: u8, n: u32) -> Result<(), Fault>
    requires { array_string_len text.old + 7 ≤ longest }
    ensures { PutNumber n place text.old text.new result }
{
    if n > LARGEST {
        return Err(bad_field(place));
    }
    text.push('\t');
    text.push_str(Buffer::new().format(n));
    Ok(())
}

// A tab and the digits of the voters at `place`, ten at most; or the fault of that field, if there are none.
pub(crate) fn put_voters(text: &mut Text, place: u8, voters: Voters) -> Result<(), Fault>
    requires { array_string_len text.old + 11 ≤ longest }
    ensures { PutVoters voters place text.old text.new result }
{
    if voters.count() == 0 {
        return Err(bad_field(place));
    }
    text.push('\t');
    // A loop and no chain: after for_each a proof knows nothing of what its closure changed.
    for d in 0..10u8 {
        if voters.has(u32::from(d)) {
            text.push(char::from(b'0' + d));
        }
    }
    Ok(())
}
