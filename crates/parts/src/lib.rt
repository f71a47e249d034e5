// Parts of a machine: how many there are, one of them, a set of them, each within its limit, and a list of sets.
#![tactic(auto)]

mod parts;

pub use parts::list::PartSets;
pub use parts::walking::Parts;
pub use parts::{PartCount, PartNumber, PartSet};
