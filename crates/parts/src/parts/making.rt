// One checking call makes each of the three types from a plain number. Each is one test of its own limit, so a call that is
// generic in limit and refusal would be no shorter.
ghost use Rattle.std.specs.Prelude.{◌≡◌};
ghost use Rattle.parts.specs.Limits.{PartCountLimit, PartNumberLimit, PartSetLimit};
ghost use Rattle.refusals.specs.Checked.{Checked};
ghost use Rattle.refusals.specs.declared.refusal.Refusal.TheVariants.{PartCountOutOfRange, PartNumberOutOfRange, PartSetOutOfRange};

use super::{PartCount, PartNumber, PartSet};
use refusals::Refusal;

impl TryFrom<u32> for PartCount {
    type Error = Refusal;

    ghost try_from_gives = { Checked PartCountLimit PartCountOutOfRange (λ p. p.count) };

    fn try_from(count: u32) -> Result<PartCount, Refusal> {
        if 1 <= count && count <= 24 {
            Ok(PartCount { count })
        } else {
            Err(Refusal::PartCountOutOfRange)
        }
    }
}

impl PartCount {
    pub fn count(self) -> u32
        ensures value { result ≡ self.count }
        ensures limit { PartCountLimit result }
    {
        self.count
    }
}

impl TryFrom<u32> for PartNumber {
    type Error = Refusal;

    ghost try_from_gives = { Checked PartNumberLimit PartNumberOutOfRange (λ p. p.index) };

    fn try_from(index: u32) -> Result<PartNumber, Refusal> {
        if index < 24 {
            Ok(PartNumber { index })
        } else {
            Err(Refusal::PartNumberOutOfRange)
        }
    }
}

impl PartNumber {
    pub fn index(self) -> u32
        ensures value { result ≡ self.index }
        ensures limit { PartNumberLimit result }
    {
        self.index
    }
}

impl TryFrom<u32> for PartSet {
    type Error = Refusal;

    ghost try_from_gives = { Checked PartSetLimit PartSetOutOfRange (λ p. p.bits) };

    fn try_from(bits: u32) -> Result<PartSet, Refusal> {
        if bits < 1 << 24 {
            Ok(PartSet { bits })
        } else {
            Err(Refusal::PartSetOutOfRange)
        }
    }
}

impl PartSet {
    pub fn bits(self) -> u32
        ensures value { result ≡ self.bits }
        ensures limit { PartSetLimit result }
    {
        self.bits
    }
}
