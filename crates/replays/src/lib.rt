// Whole histories of a book: steps one after the other over real slots, with what is told of each.
#![tactic(auto)]

mod changes;
mod history;

pub use changes::{HistoryStep, Order, Outcome, replay_changes};
pub use history::replay;
