// Lines of text that carry steps: read, checked and written.
#![tactic(auto)]

mod body;
mod check;
mod fault;
mod field;
mod limits;
mod number;
mod read;
mod set;
mod step;
mod text;
mod write;

pub use check::lidvauma_check_line;
pub use limits::{LARGEST, LONGEST};
pub use read::read_line;
pub use step::Step;
pub use write::write_line;
