// A trial: a part is pulled for as long as the trial lives, and its end puts the card back as it was.
ghost use Rattle.std.specs.Prelude.{◌≡◌};
ghost use Rattle.cards.specs.Trials.{pulling, with_pulled};

use crate::card::Card;
use parts::{PartNumber, PartSet};

// The card is lent to the trial, so nobody else sees the part that is pulled.
pub struct TrialPull<'a> {
    pub card: &'a mut Card,
    // The parts that were pulled before, so that a part which was out already stays out.
    before: PartSet,
}

impl<'a> TrialPull<'a> {
    pub fn new(card: &'a mut Card, part: PartNumber) -> TrialPull<'a>
        ensures lender { result.card.ghost_name ≡ card.entry.ghost_name }
        ensures pulled { result.card.now ≡ pulling card.old part }
        ensures before { result.before ≡ card.old.pulled }
    {
        let before = card.pulled;
        card.pull(part);
        TrialPull { card, before }
    }

    // The card as it is during the trial.
    pub fn card(&self) -> &Card
        ensures { result.now ≡ self.now.card.now }
    {
        self.card
    }
}

impl Drop for TrialPull<'_> {
    fn drop(self)
        ensures { self.exit.0.now ≡ with_pulled self.entry.card.now self.entry.before }
    {
        self.card.pulled = self.before;
        let TrialPull { card: _, before: _ } = self;
    }
}
