// Histories of entries, sealings and reopenings over real slots: the bridge in both kinds, and what a book does not take.
use parts::{PartCount, PartSet};
use products::{ProductKind, blank_products};
use refusals::Refusal;
use replays::{HistoryStep, Order, Outcome, replay_changes};
use std::alloc::Global;
use std::test::Fail;

// What was answered to each step: it is taken, or else refused, if it is allowed; and the two counts at the end.
#[derive(Drop)]
struct Replayed {
    answers: Vec<Result<(), Option<Refusal>>>,
    counts: (usize, usize),
}

fn answer(step: &HistoryStep) -> Result<(), Option<Refusal>> {
    match step.outcome {
        Outcome::Taken => Ok(()),
        Outcome::Refused(refusal) => Err(Some(refusal)),
        Outcome::NotAllowed => Err(None),
    }
}

// Gives these orders to a new book of five parts.
fn replay_all<K: ProductKind>(heap: Global, orders: &[Order]) -> Result<Replayed, Fail> {
    let mut slots = blank_products::<K>(heap, 300)?;
    let mut work = blank_products::<K>(heap, 64)?;
    let outcome = Outcome::NotAllowed;
    let steps = orders.iter().map(|order| HistoryStep {
        order: *order,
        outcome,
    });
    let mut steps: Vec<HistoryStep> = steps.collect(heap)?;
    let stage = replay_changes(
        PartCount::try_from(5)?,
        slots.as_mut_slice(),
        work.as_mut_slice(),
        steps.as_mut_slice(),
    );
    let counts = stage.counts();
    let answers = steps.iter().map(answer).collect(heap)?;
    Ok(Replayed { answers, counts })
}

fn entry(bits: u32) -> Result<Order, Fail> {
    Ok(Order::Enter(PartSet::try_from(bits)?))
}

#[test]
fn bridge_entered_and_sealed(rt: HostRuntime) -> Result<(), Fail> {
    let orders = [
        entry(0b00011)?,
        entry(0b01100)?,
        entry(0b11001)?,
        entry(0b10110)?,
        Order::Seal,
    ];
    let group = replay_all::<group::GroupProduct>(rt.alloc(), &orders)?;
    assert!(rt; group.answers.as_slice() == [Ok(()); 5].as_slice());
    assert!(rt; group.counts == (4, 4));
    let single = replay_all::<single::SingleProduct>(rt.alloc(), &orders)?;
    assert!(rt; single.answers.as_slice() == [Ok(()); 5].as_slice());
    assert!(rt; single.counts == (4, 5));
    Ok(())
}

#[test]
fn orders_that_are_not_taken(rt: HostRuntime) -> Result<(), Fail> {
    let orders = [
        Order::Reopen,
        entry(0)?,
        entry(0b100000)?,
        entry(0b00011)?,
        entry(0b00111)?,
        Order::Seal,
        entry(0b01100)?,
        Order::Seal,
        Order::Reopen,
        entry(0b01100)?,
    ];
    let answers = [
        Err(None),
        Err(Some(Refusal::PathEmpty)),
        Err(Some(Refusal::PathOutsideMachine)),
        Ok(()),
        Err(Some(Refusal::PathAlreadyCovered)),
        Ok(()),
        Err(None),
        Err(None),
        Ok(()),
        Ok(()),
    ];
    let group = replay_all::<group::GroupProduct>(rt.alloc(), &orders)?;
    assert!(rt; group.answers.as_slice() == answers.as_slice());
    assert!(rt; group.counts == (2, 2));
    Ok(())
}
