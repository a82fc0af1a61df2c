ghost use Rattle.std.specs.Prelude.{◌≡◌, cond, length, Some, None, ◌==◌, slice_index, MatchResult};
ghost use Rattle.lines.specs.declared.step.Step.TheVariants.{Call as Asks};
ghost use Rattle.lines.specs.Reading.{setting, proposal, pair, change, query, step_of, parse};

use crate::body::body;
use crate::fault::refused;
use crate::field::{Field, Rest, count};
use crate::step::Step;
use base::{Fault, Record, Refusal};
use protocol::Setting;
use terms::Call;

// Each reader takes its own fields by name: one over a list of numbers would lose the names.
fn read_setting(fields: &[u8]) -> Result<Step, Fault>
    ensures { result ≡ setting fields.now }
{
    let mut rest = Rest::after_letter(fields);
    let size = rest.number()?;
    let leader = rest.number()?;
    let fast = rest.flag()?;
    Ok(Step::Start(Setting { size, leader, fast }))
}

fn read_proposal(fields: &[u8]) -> Result<Step, Fault>
    ensures { result ≡ proposal fields.now }
{
    let mut rest = Rest::after_letter(fields);
    let book = rest.number()?;
    let act = rest.number()?;
    let x = rest.number()?;
    let y = rest.number()?;
    let z = rest.number()?;
    Ok(Step::Call(Call::Propose(Record { book, act, x, y, z })))
}

// A call of a replica and a job, as `make` makes it of the two.
fn read_pair<F: FnOnce(u32, u32) -> Call>(fields: &[u8], make: F) -> Result<Step, Fault>
    requires { F.IsAlwaysCallable make }
    ensures { MatchResult result
        (λ s. (call : _) × (s ≡ Asks call) × (p : _) × (pair fields.now ≡ Ok p) × F.post make p.0 p.1 call)
        (λ e. pair fields.now ≡ Err e) }
{
    let mut rest = Rest::after_letter(fields);
    let replica = rest.number()?;
    let job = rest.number()?;
    Ok(Step::Call(make(replica, job)))
}

fn read_change(fields: &[u8]) -> Result<Step, Fault>
    ensures { result ≡ change fields.now }
{
    let mut rest = Rest::after_letter(fields);
    let leader = rest.number()?;
    let voters = rest.voters()?;
    Ok(Step::Call(Call::Change { leader, voters }))
}

fn read_query(fields: &[u8]) -> Result<Step, Fault>
    ensures { result ≡ query fields.now }
{
    let mut rest = Rest::after_letter(fields);
    let job = rest.number()?;
    Ok(Step::Call(Call::Query { job }))
}

// The step of a letter, a number of fields and what comes after the letter.
fn read_step(letter: char, count: usize, fields: &[u8]) -> Result<Step, Fault>
    ensures { result ≡ step_of letter count fields.now }
{
    match (letter, count) {
        ('W', 4) => read_setting(fields),
        ('P', 6) => read_proposal(fields),
        ('R', 3) => read_pair(fields, |replica, job| Call::Receive { replica, job }),
        ('H', 3) => read_pair(fields, |replica, job| Call::Hear { replica, job }),
        ('N', 3) => read_pair(fields, |replica, job| Call::Notice { replica, job }),
        ('Y', 1) => Ok(Step::Call(Call::Sync)),
        ('L', 3) => read_change(fields),
        ('Q', 2) => read_query(fields),
        ('W' | 'P' | 'R' | 'H' | 'N' | 'Y' | 'L' | 'Q', _) => {
            Err(refused(Refusal::WrongFieldCount))
        }
        _ => Err(refused(Refusal::UnknownLetter)),
    }
}

// The one byte of a field that has one.
fn only(bytes: &[u8]) -> Option<u8>
    ensures { result ≡ cond (length bytes.now == 1) (Some (slice_index bytes.now 0)) None }
{
    match bytes {
        [byte] => Some(*byte),
        _ => None,
    }
}

// The one step, or the one fault, that a line has.
pub fn read_line(line: &[u8]) -> Result<Step, Fault>
    ensures { result ≡ parse line.now }
{
    let body = body(line)?;
    let mut rest = Rest::whole(body);
    let Some((Field::Letter(..), letter)) = rest.take(only, Field::Letter) else {
        return Err(refused(Refusal::UnknownLetter));
    };
    read_step(char::from(letter), count(body), rest.bytes())
}
