// A book that is open or sealed as one value: what can be asked of it, and one step of its history.
#![tactic(auto)]

mod answer;
mod order;
mod stage;

pub use answer::{Answer, NotTaken, Outcome, Report};
pub use order::{Order, Reading, Weighing};
pub use stage::{HistoryStep, Stage, Stepped};
