// A whole history of a book, from the making on.
ghost use Rattle.std.specs.Prelude.{◌≡◌, map, length};
ghost use Rattle.replays.specs.Calls.{CallsAgree};
ghost use Rattle.replays.specs.Replayed.{Replayed};
ghost use Rattle.stages.specs.Stages.{order_of, through_of};

use books::OpenBook;
use measures::Measure;
use parts::PartCount;
use products::ProductKind;
use stages::{HistoryStep, Stage};

// Makes a book over the slots lent and takes each step in turn; what is told of it goes beside it. After the making and
// after each step no state is in two products, the states in a product are those that contain an entered path, and a worth
// that is read is the worth of exactly these states. What is told goes beside the orders, not into a list of its own, as
// this needs no memory and so cannot stop half way.
pub fn replay<'a, K: ProductKind, V: Measure>(
    parts: PartCount,
    slots: &'a mut [K],
    work: &mut [K],
    steps: &mut [HistoryStep<V>],
) -> Stage<'a, K>
    ensures replayed { Replayed V.semiring V.meaning K.cut K.meaning parts.count slots.old (length work.old) steps.new result }
    ensures orders { map order_of steps.new ≡ map order_of steps.old }
    ensures calls { CallsAgree V.semiring V.meaning K.cut }
    ensures through { through_of result ≡ slots.entry.ghost_name }
{
    let mut stage = Stage::Open(OpenBook::new(parts, slots));
    for step in steps.iter_mut() {
        let taken = stage.step(&step.order, work);
        stage = taken.stage;
        step.report = taken.report;
    }
    stage
}
