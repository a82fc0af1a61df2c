ghost use Rattle.std.specs.Prelude.{◌≡◌};
ghost use Rattle.lines.specs.Writing.{letter_of};

use protocol::Setting;
use terms::Call;

// What one line says: the setting of a new group, or a call of a running one.
#[derive(Clone, Copy, PartialEq, Eq, Debug)]
pub enum Step {
    Start(Setting),
    Call(Call),
}

// The letter that a step's line begins with.
impl From<Step> for char {
    ghost from_gives = { λ step letter. letter ≡ letter_of step };

    fn from(step: Step) -> char {
        match step {
            Step::Start(_) => 'W',
            Step::Call(Call::Propose(_)) => 'P',
            Step::Call(Call::Receive { .. }) => 'R',
            Step::Call(Call::Hear { .. }) => 'H',
            Step::Call(Call::Notice { .. }) => 'N',
            Step::Call(Call::Sync) => 'Y',
            Step::Call(Call::Change { .. }) => 'L',
            Step::Call(Call::Query { .. }) => 'Q',
        }
    }
}
