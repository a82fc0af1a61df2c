#![tactic(auto)]

mod theorem;

pub use theorem::{follows_model, model_cases, stability, type_ok};
