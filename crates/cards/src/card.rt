// The card, a plain record.
ghost use Rattle.std.specs.Prelude.{◌≡◌, ◌^◌, ◌<◌};
ghost use Rattle.cards.specs.Trials.{pulling};
ghost use Rattle.refusals.specs.Checked.{Checked};
ghost use Rattle.refusals.specs.declared.refusal.Refusal.TheVariants.{PulledPartOutsideMachine};

use parts::{PartCount, PartNumber, PartSet};
use refusals::Refusal;

// What the mechanic has noted: the parts that are pulled out of the machine.
#[derive(Clone, Copy, PartialEq, Eq, Debug)]
pub struct Card {
    pub pulled: PartSet,
}

impl Card {
    // Not a `From`: a card is no other form of a set, so `Card::from(set)` would say less.
    pub fn new(pulled: PartSet) -> Card
        ensures { result.pulled ≡ pulled }
    {
        Card { pulled }
    }

    // One part more is out.
    pub fn pull(&mut self, part: PartNumber)
        ensures { self.new ≡ pulling self.old part }
    {
        self.pulled = self.pulled.with(part);
    }

    // The pulled parts, refused where one of them is not a part of a machine of that many parts.
    pub fn pulled_within(&self, count: PartCount) -> Result<PartSet, Refusal>
        ensures { Checked (λ s. s.bits < 2 ^ count.count) PulledPartOutsideMachine (λ s. s) self.now.pulled result }
    {
        if self.pulled.is_below(count) {
            Ok(self.pulled)
        } else {
            Err(Refusal::PulledPartOutsideMachine)
        }
    }
}
