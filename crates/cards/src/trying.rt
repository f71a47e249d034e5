// What a card says while parts are pulled on trial. Whichever way each call ends, the card is as it was.
ghost use Rattle.std.specs.Prelude.{◌≡◌, fold};
ghost use Rattle.cards.specs.Trials.{pulling, CountedWithin};

use crate::card::Card;
use crate::trial::TrialPull;
use parts::{PartCount, PartNumber, PartSet};
use refusals::Refusal;

// The pulled parts with one more. The trial ends with the call.
pub fn pulled_on_trial(card: &mut Card, part: PartNumber) -> PartSet
    ensures same { card.new ≡ card.old }
    ensures value { result ≡ (pulling card.old part).pulled }
{
    let during = TrialPull::new(card, part);
    during.card().pulled
}

// How many parts are out with one more, refused where the machine does not have one of them. The refusal ends the trial too.
pub fn count_on_trial(card: &mut Card, part: PartNumber, count: PartCount) -> Result<usize, Refusal>
    ensures same { card.new ≡ card.old }
    ensures value { CountedWithin count.count (pulling card.old part) result }
{
    let trial = TrialPull::new(card, part);
    let pulled = trial.card().pulled_within(count)?;
    Ok(pulled.count())
}

// The card with these parts pulled too, each in a trial within the one before. The inner trials borrow the card from the
// outer ones, and end first.
pub fn card_on_trials(card: &mut Card, parts: &[PartNumber]) -> Card
    ensures same { card.new ≡ card.old }
    ensures value { result ≡ fold pulling card.old parts.now }
{
    let Some((part, rest)) = parts.split_first() else {
        return *card;
    };
    let trial = TrialPull::new(card, *part);
    card_on_trials(trial.card, rest)
}
