// Whole histories of a book: a client asks for steps one after the other over real slots, and is shown the answer of each.
#![tactic(auto)]

mod ending;
mod history;

pub use ending::{CutShort, Finished};
pub use history::replay;
