// Measures: what the worth of a state can be, with a sum and a product that keep the laws of arithmetic.
#![tactic(auto)]

mod lists;
mod measure;
mod pair;
mod ways;

pub use lists::{product, sum};
pub use measure::Measure;
pub use pair::Pair;
pub use ways::{Ways, lack_of};
