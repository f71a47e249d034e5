// A history of changes alone: entries, sealings and reopenings. Nothing is read in it, so its steps own no weights, are small
// and can be copied.
ghost use Rattle.std.specs.Prelude.{◌≡◌, map, length};
ghost use Rattle.books.specs.Held.{lent, SparedSpace};
ghost use Rattle.histories.specs.Runs.{making};
ghost use Rattle.replays.specs.Calls.{asked};
ghost use Rattle.replays.specs.Changes.{after, outcomes, outcome_told, SoundAlong, call_of, calls_of, order_of, answer_of};
ghost use Rattle.stages.specs.Stages.{ask_of, book_of, space_of, through_of};

use books::OpenBook;
use numbers::Count;
use parts::{PartCount, PartSet};
use products::ProductKind;
use refusals::Refusal;
use stages::{NotTaken, Stage};

// What changes a book.
#[derive(Clone, Copy)]
pub enum Order {
    Enter(PartSet),
    Seal,
    Reopen,
}

// What the book answers: the step is taken or refused, or the book, as it is open or sealed, does not allow it.
#[derive(Clone, Copy)]
pub enum Outcome {
    Taken,
    Refused(Refusal),
    NotAllowed,
}

// One step of such a history: what is asked, and the place for the answer.
#[derive(Clone, Copy)]
pub struct HistoryStep {
    pub order: Order,
    pub outcome: Outcome,
}

// A step of a book names a measure, also where nothing is read: any serves, and a count is small.
impl Order {
    // What the order asks of a book; an entry has so many places of the working space.
    fn asked(self, places: usize) -> stages::Order<Count>
        ensures { ask_of places result ≡ asked (call_of places self) }
    {
        match self {
            Order::Enter(path) => stages::Order::Enter(path, places),
            Order::Seal => stages::Order::Seal,
            Order::Reopen => stages::Order::Reopen,
        }
    }
}

impl Outcome {
    // What is told of a step, without what a reading gives.
    fn of(told: stages::Outcome<Count>) -> Outcome
        ensures { result ≡ outcome_told told }
    {
        match told {
            Ok(_) => Outcome::Taken,
            Err(NotTaken::Refused(refusal)) => Outcome::Refused(refusal),
            Err(NotTaken::NotAllowed) => Outcome::NotAllowed,
        }
    }
}

// Makes a book over the slots lent and takes each step in turn; its answer goes beside it, so that this needs no memory. Each
// entry has the whole working space. After the making and after each step no state is in two products, and the states in a
// product are those that contain an entered path.
pub fn replay_changes<'a, K: ProductKind>(
    parts: PartCount,
    slots: &'a mut [K],
    work: &mut [K],
    steps: &mut [HistoryStep],
) -> Stage<'a, K>
    ensures book { book_of K.meaning result ≡ after K.cut (making parts.count (length slots.old)) (calls_of (length work.old) steps.old) }
    ensures answers { map answer_of steps.new ≡ outcomes K.cut (making parts.count (length slots.old)) (calls_of (length work.old) steps.old) }
    ensures orders { map order_of steps.new ≡ map order_of steps.old }
    ensures law { SoundAlong K.cut (making parts.count (length slots.old)) (calls_of (length work.old) steps.old) }
    ensures spared { SparedSpace (lent slots.old) (space_of result) }
    ensures through { through_of result ≡ slots.entry.ghost_name }
{
    let mut stage = Stage::Open(OpenBook::new(parts, slots));
    for step in steps.iter_mut() {
        let order = step.order.asked(work.len());
        let taken = stage.step(&order, work);
        stage = taken.stage;
        step.outcome = Outcome::of(taken.report.outcome);
    }
    stage
}
