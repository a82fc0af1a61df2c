ghost use Rattle.std.specs.Prelude.{◌≡◌, length};
ghost use Rattle.week.specs.Reports.{told_fields, refused_fields, row as row_of, line_for, written_length, filled};

use crate::event::{Event, Outcome};
use crate::text::Cell::{Number, Sign};
use crate::text::{Cell, Text, row};
use base::{Fault, Layer, Refusal};
use lines::Step;
use terms::Call;

// A buffer of so many bytes takes every line of a run.
pub const SHORTEST_BUFFER: usize = 40;

// What a line told.
fn told(number: u32, outcome: Outcome) -> Text
    ensures { result.bytes ≡ row_of number (told_fields outcome) }
{
    match outcome {
        Outcome::Started(q) => row(
            number,
            &[
                Sign('W'),
                Number(q.fast),
                Number(q.recovery),
                Number(q.blocking),
            ],
        ),
        Outcome::Proposed(job) => row(number, &[Sign('P'), Number(job)]),
        Outcome::Received(r) => row(number, &[Sign('R'), Sign(char::from(r))]),
        Outcome::Heard(phase) => row(number, &[Sign('H'), Sign(char::from(phase))]),
        Outcome::Synced(y) => row(number, &[Sign('Y'), Number(y.job), Number(y.result)]),
        Outcome::Noticed(pooled) => row(number, &[Sign('N'), Number(pooled)]),
        Outcome::Changed(l) => row(number, &[Sign('L'), Number(l.epoch), Number(l.recovered)]),
        Outcome::Queried(q) => {
            let phase = Sign(char::from(q.phase));
            let (told, place) = (Cell::from(q.told), Cell::from(q.place));
            row(
                number,
                &[Sign('Q'), phase, told, place, Cell::from(q.given)],
            )
        }
    }
}

// A call that was refused.
fn refused(number: u32, call: Call, fault: Fault) -> Text
    ensures { result.bytes ≡ row_of number (refused_fields call fault fault.field) }
{
    let letter = Sign(char::from(Step::Call(call)));
    let refusal = Number(u32::from(fault.number));
    match fault.field {
        None => row(number, &[letter, Sign('!'), refusal]),
        Some(field) => row(
            number,
            &[letter, Sign('!'), refusal, Number(u32::from(field))],
        ),
    }
}

// The report's line for what the line of this number came to.
pub(crate) fn line(number: u32, event: Event) -> Text
    ensures { result.bytes ≡ line_for number event }
{
    match event {
        Event::Told(outcome) => told(number, outcome),
        Event::Refused(call, fault) => refused(number, call, fault),
        Event::Ended(fault) => {
            let refusal = u32::from(fault.number);
            let field = u32::from(fault.field.unwrap_or(0));
            row(number, &[Sign('#'), Number(refusal), Number(field)])
        }
    }
}

// Writes the report's line to the front of `out`, and says how long it is. A refusal leaves `out` as it was.
pub fn report_line(number: u32, event: Event, out: &mut [u8]) -> Result<usize, Fault>
    ensures told { result ≡ written_length (line_for number event) (length out.old) }
    ensures buffer { out.new ≡ filled (written_length (line_for number event) (length out.old)) (line_for number event) out.old }
{
    let short = Fault::of(Refusal::ShortBuffer, Layer::Text);
    if out.len() < SHORTEST_BUFFER {
        return Err(short);
    }
    let text = line(number, event);
    if out.len() < text.len() {
        return Err(short);
    }
    out[..text.len()].copy_from_slice(text.as_bytes());
    Ok(text.len())
}
