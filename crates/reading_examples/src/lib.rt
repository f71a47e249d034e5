// Worked examples of readings, run as tests.
#![tactic(auto)]

#[cfg(test)]
mod figures;
