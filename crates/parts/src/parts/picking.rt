// Counting the parts of a set, and picking them in rising number.
ghost use Rattle.std.specs.Prelude.{◌≡◌, ◌≤◌, length, drop};
ghost use Rattle.parts.specs.Picks.{Lowest};
ghost use Rattle.parts.specs.Sets.{parts};

use super::{PartNumber, PartSet};

impl PartSet {
    // How many parts the set has.
    pub fn count(self) -> usize
        ensures value { result ≡ length (parts self.bits) }
        ensures bound { result ≤ 24 }
    {
        self.bits.count_ones() as usize
    }

    // The part of the lowest number.
    pub fn lowest(self) -> Option<PartNumber>
        ensures { Lowest self.bits result }
    {
        if self.bits == 0 {
            return None;
        }
        Some(PartNumber {
            index: self.bits.trailing_zeros(),
        })
    }

    // The set without its lowest part; the empty set stays empty.
    pub fn without_lowest(self) -> PartSet
        ensures { parts result.bits ≡ drop 1 (parts self.bits) }
    {
        match self.lowest() {
            Some(part) => self.difference(part.alone()),
            None => self,
        }
    }

    // The set without its `k` lowest parts.
    pub fn past(self, k: usize) -> PartSet
        ensures { parts result.bits ≡ drop k (parts self.bits) }
    {
        let mut rest = self;
        for _ in 0..k.min(24) {
            rest = rest.without_lowest();
        }
        rest
    }
}
