// The run of a whole file of lines, and its report.
#![tactic(auto)]

mod calls;
mod cut;
mod event;
mod report;
mod run;
mod text;
mod theorem;

pub use calls::perform;
pub use event::{Event, Outcome};
pub use report::{SHORTEST_BUFFER, report_line};
pub use run::{LONGEST_FILE, run_week};
pub use theorem::reports_tell_history;
