ghost use Rattle.group.specs.View.{AllBecame, Leaves};

use crate::replica::Replica;

// A message to or from a box of the group, about a job that was proposed.
#[derive(Clone, Copy)]
pub(crate) struct Message {
    pub replica: usize,
    pub job: u8,
}

// The same goes to every box.
pub(crate) fn send_all<F: Fn(&mut Replica)>(boxes: &mut [Replica], send: F)
    requires { F.IsAlwaysCallable send }
    ensures { AllBecame (Leaves (F.post send)) boxes.old boxes.new }
{
    for at in boxes.iter_mut() {
        send(at);
    }
}
