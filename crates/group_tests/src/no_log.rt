ghost use Rattle.std.specs.Prelude.{[]};
ghost use Rattle.std.proofs.Common.{lit≤};

use base::{Fault, Layer, Refusal};
use logs::Log;

// A log that has room for nothing.
#[derive(Drop)]
pub struct NoLog;

impl Log for NoLog {
    ghost limit = { 0 };

    ghost entries = { λ _. [] };

    ghost bounded = { lit≤ tt };

    fn fresh() -> NoLog {
        NoLog
    }

    fn add(&mut self, _number: u16) -> Result<(), Fault> {
        Err(Fault::of(Refusal::Full, Layer::Log))
    }

    fn length(&self) -> usize {
        0
    }

    fn capacity() -> usize {
        0
    }

    fn get(&self, _place: usize) -> Option<u16> {
        None
    }
}
