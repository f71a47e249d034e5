// Reading a list of sets, adding to it, and putting another set in the place of one.
ghost use Rattle.std.specs.Prelude.{◌≡◌, ◌<◌, ◌≤◌, [], ◌∷◌, ◌++◌, length, slice_set};
ghost use Rattle.parts.specs.Lists.{sets_in};

use super::PartSets;
use crate::parts::PartSet;

impl<const N: usize> PartSets<N> {
    pub fn new() -> PartSets<N>
        ensures { sets_in result ≡ [] }
    {
        PartSets {
            sets: [PartSet::none(); N],
            count: 0,
        }
    }

    pub fn as_slice(&self) -> &[PartSet]
        ensures value { result.now ≡ sets_in self.now }
        ensures room { length result.now ≤ N }
    {
        &self.sets[..self.count]
    }

    // Public only for the crates of the kinds and of the books, which see that there is room.
    pub fn push(&mut self, set: PartSet)
        requires { length (sets_in self.now) < N }
        ensures { sets_in self.new ≡ sets_in self.old ++ (set ∷ []) }
    {
        self.sets[self.count] = set;
        self.count += 1;
    }

    // Public only for the crates of the kinds, which see that set `j` is there.
    pub fn replace(&mut self, j: usize, set: PartSet)
        requires { j < length (sets_in self.now) }
        ensures { sets_in self.new ≡ slice_set (sets_in self.old) j set }
    {
        self.sets[j] = set;
    }
}
