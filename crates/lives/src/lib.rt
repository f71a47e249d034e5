// Lives: the measure that says how much of its life a part has left.
#![tactic(auto)]

mod life;

pub use life::Life;
