// Walking over the parts of a set in rising number.
ghost use Rattle.std.specs.Prelude.{◌≡◌};
ghost use Rattle.std.specs.Iterator.{YieldsFirstBy, item_count};
ghost use Rattle.parts.specs.Sets.{numbers};

use super::{PartNumber, PartSet};

// The parts of a set that are still to come.
#[derive(Clone, Copy, Debug)]
pub struct Parts {
    left: PartSet,
}

impl Iterator for Parts {
    type Item = PartNumber;

    ghost next_gives = { YieldsFirstBy (λ part. part.index) (λ it. numbers it.left.bits) };

    ghost remaining = { item_count (λ it. numbers it.left.bits) };

    #[tactic(auto, using(crate::proofs::Numbers::numbers_first, crate::proofs::Numbers::numbers_none))]
    fn next(&mut self) -> Option<PartNumber> {
        let part = self.left.lowest()?;
        self.left = self.left.without_lowest();
        Some(part)
    }
}

impl IntoIterator for PartSet {
    type Item = PartNumber;

    type IntoIter = Parts;

    ghost into_iter_gives = { λ set it. it.left ≡ set };

    fn into_iter(self) -> Parts {
        Parts { left: self }
    }
}
