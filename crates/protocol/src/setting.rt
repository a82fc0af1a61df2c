ghost use Rattle.std.specs.Prelude.{◌≡◌};
ghost use Rattle.protocol.specs.Settings.{setting_refusal};
ghost use Rattle.protocol.specs.Outcomes.{settled};

use base::{Fault, Layer, Refusal};

// What a group is made with: how many boxes, who leads first, and whether jobs may be confirmed the fast way.
#[derive(Clone, Copy, PartialEq, Eq, Debug)]
pub struct Setting {
    pub size: u32,
    pub leader: u32,
    pub fast: bool,
}

impl Setting {
    // A group has an odd number of boxes, 1 to 9, and its leader is one of them.
    pub fn check(self) -> Result<(), Fault>
        ensures { result ≡ settled (setting_refusal self) tt }
    {
        if self.size % 2 == 0 || self.size > 9 {
            return Err(Fault::of(Refusal::BadSize, Layer::Group));
        }
        if self.leader >= self.size {
            return Err(Fault::of(Refusal::BadLeader, Layer::Group));
        }
        Ok(())
    }
}
