// A whole history of a book, from the making on.
ghost use Rattle.std.specs.Fn.{CalledAt};
ghost use Rattle.std.specs.Prelude.{◌≡◌, ◌<◌, ◌≤◌, [], ◌∷◌, ◌++◌, length, vec_len, vec_capacity};
ghost use Rattle.clients.specs.Asked.{AskedFor};
ghost use Rattle.replays.specs.Replayed.{Replayed};
ghost use Rattle.stages.specs.Stages.{through_of};

use crate::ending::{CutShort, Finished};
use books::OpenBook;
use measures::Measure;
use parts::PartCount;
use products::ProductKind;
use stages::{HistoryStep, Order, Stage};

// Puts the step behind the earlier ones, where there is room already.
fn record<V: Measure>(steps: &mut Vec<HistoryStep<V>>, step: HistoryStep<V>)
    requires { vec_len steps.old < vec_capacity steps.old }
    ensures items { steps.new.items ≡ steps.old.items ++ (step ∷ []) }
    ensures capacity { vec_capacity steps.old ≤ vec_capacity steps.new }
{
    let _ = steps.push(step);
}

// Makes a book over the slots lent, and takes the steps that the client asks for, one after the other; it is shown the
// earlier ones each time. The steps handed back are these, each with what was told of it; they stand in the room of the
// steps given, which are cleared first. After the making and after each step no state is in two products, the states in a
// product are those that contain an entered path, and a worth that is read is the worth of exactly these states. The history
// ends when the client asks for nothing more. Where no memory is left for a further step it ends before that step, but not
// while there is room from the start. The client is lent, because its owner goes on with it as it is then.
pub fn replay<'a, K, V, C>(
    parts: PartCount,
    slots: &'a mut [K],
    work: &mut [K],
    client: &mut C,
    mut steps: Vec<HistoryStep<V>>,
) -> Finished<'a, K, V>
where
    K: ProductKind,
    V: Measure,
    C: FnMut(&[HistoryStep<V>]) -> Option<Order<V>>,
    requires { C.IsAlwaysCallable client.old }
    ensures replayed { Replayed V.semiring V.meaning K.cut K.meaning parts.count slots.old (length work.old) result.steps.items result.stage }
    ensures asked { AskedFor (CalledAt C.FnMut) client.old result.steps.items (vec_capacity steps) result.ending client.new }
    ensures through { through_of result.stage ≡ slots.entry.ghost_name }
{
    steps.clear();
    let mut stage = Stage::Open(OpenBook::new(parts, slots));
    for _ in 0..u64::MAX {
        // Room for its record comes first, so that no step goes unrecorded.
        let Ok(()) = steps.reserve(1) else {
            return Finished {
                stage,
                steps,
                ending: Err(CutShort::NoMemory),
            };
        };
        let Some(order) = client(steps.as_slice()) else {
            return Finished {
                stage,
                steps,
                ending: Ok(()),
            };
        };
        let taken = stage.step(&order, work);
        stage = taken.stage;
        let report = taken.report;
        record(&mut steps, HistoryStep { order, report });
    }
    Finished {
        stage,
        steps,
        ending: Err(CutShort::Full),
    }
}
