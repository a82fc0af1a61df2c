// Examples of lines: what the check answers, what is read, and what is written.
#![tactic(auto)]

#[cfg(test)]
mod checks;
#[cfg(test)]
mod reads;
#[cfg(test)]
mod writes;
