// Worked examples, run as tests: the limits of the checked types, cuts of both kinds, values of measures, books and their
// histories; and what a caller learns of equal refusals.
#![tactic(auto)]

#[cfg(test)]
mod changes;
mod comparing;
#[cfg(test)]
mod cuts;
#[cfg(test)]
mod entries;
#[cfg(test)]
mod limits;
#[cfg(test)]
mod values;

pub use comparing::are_equal;
