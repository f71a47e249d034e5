// What can be asked of sets of parts, and the sets made from two others.
ghost use Rattle.std.specs.Prelude.{◌≡◌, ◌-◌, ◌^◌, bit_and, bit_or, nat_lt};
ghost use Rattle.std.specs.List.{range_with_len};
ghost use Rattle.parts.specs.Sets.{has, within, without, empty, numbers};

use super::{PartCount, PartNumber, PartSet};

impl PartCount {
    // The set of all parts of a machine of that many parts.
    pub fn all(self) -> PartSet
        ensures bits { result.bits ≡ 2 ^ self.count - 1 }
        ensures each { numbers result.bits ≡ range_with_len 0 self.count }
    {
        PartSet {
            bits: (1 << self.count) - 1,
        }
    }
}

impl PartNumber {
    // The set of this part alone.
    pub fn alone(self) -> PartSet
        ensures { result.bits ≡ 2 ^ self.index }
    {
        PartSet {
            bits: 1 << self.index,
        }
    }
}

impl PartSet {
    // The set without any part.
    pub fn none() -> PartSet
        ensures { result.bits ≡ 0 }
    {
        PartSet { bits: 0 }
    }

    pub fn is_empty(self) -> bool
        ensures { result ≡ empty self.bits }
    {
        self.bits == 0
    }

    pub fn contains(self, part: PartNumber) -> bool
        ensures { result ≡ has self.bits part.index }
    {
        self.bits >> part.index & 1 == 1
    }

    // Is every part of this set in the other?
    pub fn is_within(self, other: PartSet) -> bool
        ensures { result ≡ within self.bits other.bits }
    {
        self.bits & other.bits == self.bits
    }

    // Are all parts of the set parts of a machine of that many parts?
    pub fn is_below(self, count: PartCount) -> bool
        ensures { result ≡ nat_lt self.bits (2 ^ count.count) }
    {
        self.bits < 1 << count.count
    }

    // The parts that both sets have.
    pub fn common(self, other: PartSet) -> PartSet
        ensures { result.bits ≡ bit_and self.bits other.bits }
    {
        PartSet {
            bits: self.bits & other.bits,
        }
    }

    pub fn union(self, other: PartSet) -> PartSet
        ensures { result.bits ≡ bit_or self.bits other.bits }
    {
        PartSet {
            bits: self.bits | other.bits,
        }
    }

    // The parts of this set that the other does not have.
    pub fn difference(self, other: PartSet) -> PartSet
        ensures { result.bits ≡ without self.bits other.bits }
    {
        PartSet {
            bits: self.bits & !other.bits,
        }
    }

    pub fn with(self, part: PartNumber) -> PartSet
        ensures { result.bits ≡ bit_or self.bits (2 ^ part.index) }
    {
        self.union(part.alone())
    }
}
