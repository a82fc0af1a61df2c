#![tactic(auto)]

mod array;
mod continued;
mod line;
mod log;

pub use array::ArrayLog;
pub use continued::Continued;
pub use line::LineLog;
pub use log::Log;

// The pile that is shipped: one array log, and a second for what the first can't hold.
pub type ShippedLog = Continued<ArrayLog, ArrayLog>;
