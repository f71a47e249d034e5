// The card of a machine: what its mechanic has noted on it, and trials that leave it as it was.
#![tactic(auto)]

mod card;
mod trial;
mod trying;

pub use card::Card;
pub use trial::TrialPull;
pub use trying::{card_on_trials, count_on_trial, pulled_on_trial};
