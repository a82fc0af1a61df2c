#![tactic(auto)]

mod fault;
mod record;

pub use fault::{Fault, Layer, Refusal};
pub use record::Record;
