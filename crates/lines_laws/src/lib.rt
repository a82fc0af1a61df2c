// What the reader and the writer of lines are to each other.
#![tactic(auto)]

mod round;
mod theorem;

pub use round::{copy_line, echo};
