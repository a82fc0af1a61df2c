ghost use Rattle.std.specs.Prelude.{◌≡◌};
ghost use Rattle.group.specs.declared.unmade.Unmade.TheVariants.{Refused, NoMemory};

use base::Fault;
use std::alloc::AllocError;

// Why no group was made: its setting was refused, or there was no memory for it.
// `From` is written out for `from_gives`, by which contracts name what a `?` makes. No program prints it.
#[derive(Clone, Copy, Debug)]
pub enum Unmade {
    Refused(Fault),
    NoMemory,
}

impl From<Fault> for Unmade {
    ghost from_gives = { λ f u. u ≡ Refused f };

    fn from(fault: Fault) -> Unmade {
        Unmade::Refused(fault)
    }
}

impl From<AllocError> for Unmade {
    ghost from_gives = { λ _ u. u ≡ NoMemory };

    fn from(_error: AllocError) -> Unmade {
        Unmade::NoMemory
    }
}
