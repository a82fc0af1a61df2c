ghost use Rattle.std.specs.Prelude.{◌≡◌, ◌≤◌, [], ◌∷◌};
ghost use Rattle.lines.specs.Forms.{digits_after, number as number_of, led as led_of};
ghost use Rattle.lines.specs.Limits.{largest};
ghost use Rattle.std.specs.Str.{all_ascii_digits};

use crate::limits::LARGEST;

// One byte or more, and no zero in front of others.
fn led(bytes: &[u8]) -> bool
    ensures { result ≡ led_of bytes.now }
{
    !bytes.is_empty() && (bytes.len() == 1 || bytes[0] != b'0')
}

// Every byte is a digit.
pub(crate) fn digits(bytes: &[u8]) -> bool
    ensures { result ≡ all_ascii_digits bytes.now }
{
    bytes.iter().all(u8::is_ascii_digit)
}

// The number that the digit `b` makes after `n`, if `b` is one and the number is at most the largest.
fn with_digit(n: u32, b: &u8) -> Option<u32>
    requires { n ≤ largest }
    ensures { result ≡ digits_after n (b.now ∷ []) }
{
    if !b.is_ascii_digit() {
        return None;
    }
    let n = n * 10 + u32::from(*b - b'0');
    (n <= LARGEST).then_some(n)
}

// The number that `bytes` write: digits with no zero in front of others, at most the largest.
pub(crate) fn number(bytes: &[u8]) -> Option<u32>
    ensures { result ≡ number_of bytes.now }
{
    if !led(bytes) {
        return None;
    }
    bytes.iter().try_fold(0, with_digit)
}
