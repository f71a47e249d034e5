// A history of a book: the bridge's paths are entered in turn, and the book is sealed.
use books::{LEAST_PLACES, MOST_SLOTS};
use numbers::Count;
use parts::{PartCount, PartSet};
use products::{ProductKind, blank_products};
use replays::replay;
use stages::{HistoryStep, NotTaken, Order, Report};
use std::alloc::{AllocError, Global};

// An entry for each path, and a sealing; the answers are still to come. No worth is read, so any measure serves.
fn steps_of(heap: Global, paths: &[PartSet]) -> Result<Vec<HistoryStep<Count>>, AllocError> {
    let report = Report {
        outcome: Err(NotTaken::NotAllowed),
        paths: 0,
        products: 0,
    };
    paths
        .iter()
        .map(|path| Order::Enter(*path, LEAST_PLACES))
        .chain([Order::Seal])
        .map(|order| HistoryStep { order, report })
        .collect(heap)
}

// How many steps the book took.
fn taken(steps: &[HistoryStep<Count>]) -> usize {
    steps
        .iter()
        .filter(|step| step.report.outcome.is_ok())
        .count()
}

pub(crate) fn run<K: ProductKind>(
    rt: &HostRuntime,
    parts: PartCount,
    paths: &[PartSet],
) -> anyhow::Result<()> {
    let heap = rt.alloc();
    let mut slots = blank_products::<K>(heap, MOST_SLOTS)?;
    let mut work = blank_products::<K>(heap, LEAST_PLACES)?;
    let mut steps = steps_of(heap, paths)?;
    let stage = replay(
        parts,
        slots.as_mut_slice(),
        work.as_mut_slice(),
        steps.as_mut_slice(),
    );
    let (entered, held) = stage.counts();
    let done = taken(&steps);
    println!(rt; "book: {done} steps taken, {entered} paths, {held} products")?;
    Ok(())
}
