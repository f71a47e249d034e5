// A count: a whole number up to 2147483647. A record above that means 2147483647.
ghost use Rattle.std.specs.Prelude.{◌≤◌};
ghost use Rattle.numbers.specs.Limits.{limit};
ghost use Rattle.refusals.specs.Checked.{Checked};
ghost use Rattle.refusals.specs.declared.refusal.Refusal.TheVariants.{ValueOutOfRange};

use refusals::Refusal;

pub mod measure;

#[derive(Clone, Copy, Debug)]
pub struct Count {
    pub value: u32,
}

impl Count {
    // The largest count, at which sums and products stop.
    pub const CAP: u32 = 2_147_483_647;
}

impl TryFrom<u32> for Count {
    type Error = Refusal;

    ghost try_from_gives = { Checked (λ n. n ≤ limit) ValueOutOfRange (λ c. c.value) };

    fn try_from(value: u32) -> Result<Count, Refusal> {
        if value <= Self::CAP {
            Ok(Count { value })
        } else {
            Err(Refusal::ValueOutOfRange)
        }
    }
}
