ghost use Rattle.std.specs.Prelude.{◌≡◌, ◌+◌, ◌*◌, ◌≤◌, ◌∷◌, map, length, decimal};
ghost use Rattle.lines.specs.Texts.{Begun, front_of};
ghost use Rattle.lines.specs.Writing.{first_large, tabbed, unwritable, outcome, written};

use crate::fault::refused;
use crate::limits::LONGEST;
use crate::step::Step;
use crate::text::{Text, put_number, put_voters};
use base::{Fault, Refusal};
use terms::Call;

// A letter, and numbers after tabs.
fn numbers(letter: char, values: &[u32]) -> Result<Text, Fault>
    requires letter_bound { letter ≤ 127 }
    requires values_len_bound { length values.now ≤ 5 }
    ensures { Begun (first_large 2 values.now) (letter ∷ tabbed (map decimal values.now)) (1 + 7 * length values.now) result }
{
    let mut text = Text::new();
    text.push(letter);
    for (place, n) in (2..).zip(values) {
        put_number(&mut text, place, *n)?;
    }
    Ok(text)
}

// The line of a step without its end, or the fault of its first field that has no form.
fn begun(step: Step) -> Result<Text, Fault>
    ensures { Begun (unwritable step) (front_of step) 36 result }
{
    let letter = char::from(step);
    match step {
        Step::Start(s) => numbers(letter, &[s.size, s.leader, u32::from(s.fast)]),
        Step::Call(Call::Propose(r)) => numbers(letter, &[r.book, r.act, r.x, r.y, r.z]),
        Step::Call(
            Call::Receive { replica, job }
            | Call::Hear { replica, job }
            | Call::Notice { replica, job },
        ) => numbers(letter, &[replica, job]),
        Step::Call(Call::Sync) => numbers(letter, &[]),
        Step::Call(Call::Change { leader, voters }) => {
            let mut text = numbers(letter, &[leader])?;
            put_voters(&mut text, 3, voters)?;
            Ok(text)
        }
        Step::Call(Call::Query { job }) => numbers(letter, &[job]),
    }
}

// Writes the line of `step` to the front of `out`, and says how long it is. A refusal leaves `out` as it was.
pub fn write_line(step: Step, out: &mut [u8]) -> Result<usize, Fault>
    ensures told { result ≡ outcome step (length out.old) }
    ensures buffer { out.new ≡ written step out.old }
{
    if out.len() < LONGEST {
        return Err(refused(Refusal::ShortBuffer));
    }
    let mut text = begun(step)?;
    text.push('\n');
    let n = text.len();
    out[..n].copy_from_slice(text.as_str().as_bytes());
    Ok(n)
}
