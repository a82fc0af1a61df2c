#![tactic(auto)]

#[cfg(test)]
mod changes;
#[cfg(test)]
mod limits;
mod no_log;
#[cfg(test)]
mod piles;
#[cfg(test)]
mod play;
#[cfg(test)]
mod refusals;
#[cfg(test)]
mod rows;
#[cfg(test)]
mod sizes;

pub use no_log::NoLog;
