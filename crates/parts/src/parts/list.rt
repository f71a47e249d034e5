// A list of sets in fixed memory, with room for `N` sets.
ghost use Rattle.std.specs.Prelude.{◌≡◌, ◌≤◌, length};

pub mod keeping;

use super::PartSet;

// The list is the first `count` of `sets`: an array with a count, since the engine has no heap and product kinds are `Copy`.
#[derive(Clone, Copy)]
pub struct PartSets<const N: usize> {
    sets: [PartSet; N],
    count: usize,
    // The length of the array again, for the proofs.
    ghost slots: { length sets ≡ N },
    ghost room: { count ≤ N },
}
