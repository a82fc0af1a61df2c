ghost use Rattle.std.specs.Prelude.{◌≡◌};
ghost use Rattle.lines.specs.Forms.{set as set_of};

use crate::number::digits;
use terms::Voters;

// The voters that `bytes` name: one digit or more, each above the one before.
pub(crate) fn set(bytes: &[u8]) -> Option<Voters>
    ensures { result ≡ set_of bytes.now }
{
    if bytes.is_empty() || !digits(bytes) || !bytes.is_sorted_by(|a, b| a < b) {
        return None;
    }
    let digits = bytes.iter().map(|b| u32::from(*b - b'0'));
    Some(digits.fold(Voters::none(), Voters::with))
}
