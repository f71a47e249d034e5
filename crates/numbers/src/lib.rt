// Measures over whole numbers: counts that stop at a cap, and residues.
#![tactic(auto)]

// The two share their laws, by one rule in specs, and no code: they are records that callers write as literals, so no struct
// over a rule can stand for both, and each body is one line.
mod count;
mod residue;

pub use count::Count;
pub use residue::Residue;
