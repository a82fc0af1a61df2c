#![tactic(auto)]

mod book;
mod cards;
mod cases;
mod fitting;
mod pair;
mod week;
mod windows;

pub use book::Book;
use cards::CardTable;
pub use cases::clash_cases;
use fitting::Fitting;
pub use pair::Pair;
use windows::WindowTable;

// 256 slots, each with a value.
pub type Cards = Fitting<CardTable>;

// 16 vehicles, each with a week of hours that are free or taken.
pub type Windows = Fitting<WindowTable>;

// The books that a group is shipped with.
pub type ShippedBooks = Pair<Cards, Windows>;
