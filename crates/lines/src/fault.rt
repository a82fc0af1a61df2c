ghost use Rattle.std.specs.Prelude.{◌≡◌};
ghost use Rattle.lines.specs.Faults.{refused as refused_of, bad_field};

use base::{Fault, Layer, Refusal};

// A refusal about the whole line or buffer.
pub(crate) fn refused(number: Refusal) -> Fault
    ensures { result ≡ refused_of number }
{
    Fault::of(number, Layer::Text)
}

// The field at `place` has not its form.
pub(crate) fn bad_field(place: u8) -> Fault
    ensures { result ≡ bad_field place }
{
    Fault::at(place, Refusal::BadField, Layer::Text)
}
