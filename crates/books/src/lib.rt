// The book: paths are entered into it, and its slots hold the disjoint products of the states that contain one.
#![tactic(auto)]

mod book;

pub use book::contents::MOST_PATHS;
pub use book::entering::{LEAST_PLACES, MOST_SLOTS};
pub use book::{OpenBook, SealedBook};
