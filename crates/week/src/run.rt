ghost use Rattle.std.specs.Prelude.{◌≡◌, ◌≤◌, ◌++◌, length, IfOk, OnOk};
ghost use Rattle.lines.specs.Reading.{parse};
ghost use Rattle.group.specs.View.{state_of};
ghost use Rattle.week.specs.Cuts.{lines_in};
ghost use Rattle.week.specs.Reports.{line_for};
ghost use Rattle.week.specs.Runs.{longest_file, misplaced as misplaced_fault, comes_to, state_after, report_of, week_report};
ghost use Rattle.week.specs.Begun.{BegunBy};

use crate::calls::perform;
use crate::cut::Lines;
use crate::event::{Event, Outcome};
use crate::report::line;
use base::{Fault, Layer, Refusal};
use books::Book;
use group::{Group, Unmade};
use lines::{Step, read_line};
use logs::Log;
use std::alloc::{AllocError, Global};

// The most bytes that a file has.
pub const LONGEST_FILE: usize = 60_000;

// The first line is no setting, or a later one is.
fn misplaced() -> Fault
    ensures { result ≡ misplaced_fault }
{
    Fault::of(Refusal::MisplacedSetting, Layer::Text)
}

// One line more at the end of the report.
fn add(report: &mut Vec<u8>, number: u32, event: Event) -> Result<(), AllocError>
    ensures { OnOk result (report.new.items ≡ report.old.items ++ line_for number event) }
{
    report.extend_from_slice(line(number, event).as_bytes())
}

// The group that the first line sets up.
fn begin<B: Book, L: Log>(heap: Global, line: &[u8]) -> Result<Group<B, L>, Unmade>
    ensures { BegunBy B.Book L.Log (parse line.now) result }
{
    match read_line(line) {
        Ok(Step::Start(setting)) => Group::new(heap, setting),
        Ok(Step::Call(_)) => Err(Unmade::Refused(misplaced())),
        Err(fault) => Err(Unmade::Refused(fault)),
    }
}

// What a later line comes to.
fn follow<B: Book, L: Log>(group: &mut Group<B, L>, line: &[u8]) -> Event
    ensures state { state_of B.Book L.Log group.new ≡ state_after B.Book.meaning (parse line.now) (state_of B.Book L.Log group.old) }
    ensures value { result ≡ comes_to B.Book.meaning (parse line.now) (state_of B.Book L.Log group.old) }
{
    match read_line(line) {
        Ok(Step::Call(call)) => match perform(group, call) {
            Ok(outcome) => Event::Told(outcome),
            Err(fault) => Event::Refused(call, fault),
        },
        Ok(Step::Start(_)) => Event::Ended(misplaced()),
        Err(fault) => Event::Ended(fault),
    }
}

// Runs the lines of a file: the first sets up a group, and the others are run on it until one ends the run.
fn run_lines<B: Book + Drop, L: Log + Drop>(
    heap: Global,
    file: &[u8],
    report: &mut Vec<u8>,
) -> Result<(), AllocError>
    requires { length file.now ≤ longest_file }
    ensures { OnOk result (report.new.items ≡ report.old.items ++ report_of B.Book.meaning L.Log.limit (lines_in file.now)) }
{
    let mut lines = Lines { rest: file };
    let Some(first) = lines.next() else {
        return add(report, 1, Event::Ended(misplaced()));
    };
    let mut group = match begin::<B, L>(heap, first) {
        Ok(group) => group,
        Err(Unmade::Refused(fault)) => return add(report, 1, Event::Ended(fault)),
        Err(Unmade::NoMemory) => return Err(AllocError),
    };
    add(report, 1, Event::Told(Outcome::Started(group.quorums())))?;
    for (number, line) in (2..).zip(lines) {
        let event = follow(&mut group, line);
        add(report, number, event)?;
        if event.ends() {
            return Ok(());
        }
    }
    Ok(())
}

// Runs a file of lines on a new group, and gives the report.
pub fn run_week<B: Book + Drop, L: Log + Drop>(
    heap: Global,
    file: &[u8],
) -> Result<Vec<u8>, AllocError>
    ensures { IfOk result (λ v. v.items ≡ week_report B.Book.meaning L.Log.limit file.now) }
{
    let mut report = Vec::new(heap);
    if file.len() > LONGEST_FILE {
        let fault = Fault::of(Refusal::LongFile, Layer::Text);
        add(&mut report, 0, Event::Ended(fault))?;
        return Ok(report);
    }
    run_lines::<B, L>(heap, file, &mut report)?;
    Ok(report)
}
