// The counts of a book, and one step of a history.
ghost use Rattle.std.specs.Prelude.{◌≡◌, ℕ, length};
ghost use Rattle.books.specs.Held.{open_book, sealed_book, open_space, sealed_space, open_through, sealed_through, SparedSpace};
ghost use Rattle.stages.specs.Asks.{next, telling};
ghost use Rattle.stages.specs.Stages.{ask_of, book_of, space_of, through_of, telling_of};

use super::given::read;
use super::{Stage, Stepped};
use crate::answer::{Answer, NotTaken, Outcome, Report};
use crate::order::Order;
use books::{OpenBook, SealedBook};
use measures::Measure;
use products::ProductKind;

impl<'a, K: ProductKind> Stage<'a, K> {
    // The number of entered paths and the number of products.
    pub fn counts(&self) -> (usize, usize)
        ensures paths { result.0 ≡ length (book_of K.meaning self.now).paths }
        ensures products { result.1 ≡ length (book_of K.meaning self.now).products }
    {
        match self {
            Stage::Open(book) => book.counts(),
            Stage::Sealed(book) => book.counts(),
        }
    }

    // The book after the step, and what is told of it. What the book does not allow leaves it as it is.
    pub fn step<V: Measure>(self, order: &Order<V>, work: &mut [K]) -> Stepped<'a, K, V>
        ensures next { book_of K.meaning result.stage ≡ next K.cut (book_of K.meaning self.entry) (ask_of (length work.old) order.now) }
        ensures report { telling_of V.meaning result.report ≡ telling V.semiring V.meaning K.cut (book_of K.meaning self.entry) (ask_of (length work.old) order.now) }
        ensures spared { SparedSpace (space_of self.entry) (space_of result.stage) }
        ensures through { through_of result.stage ≡ through_of self.entry }
    {
        match self {
            Stage::Open(book) => step_open(book, order, work),
            Stage::Sealed(book) => step_sealed(book, order),
        }
    }

    // The book, as it is after a step of this outcome, with what is told of the step.
    fn told<V>(self, outcome: Outcome<V>) -> Stepped<'a, K, V>
        ensures stage { result.stage ≡ self.entry }
        ensures outcome { result.report.outcome ≡ outcome }
        ensures paths { result.report.paths ≡ length (book_of K.meaning self.entry).paths }
        ensures products { result.report.products ≡ length (book_of K.meaning self.entry).products }
    {
        let (paths, products) = self.counts();
        Stepped {
            stage: self,
            report: Report {
                outcome,
                paths,
                products,
            },
        }
    }
}

fn step_open<'a, K: ProductKind, V: Measure>(
    mut book: OpenBook<'a, K>,
    order: &Order<V>,
    work: &mut [K],
) -> Stepped<'a, K, V>
    ensures next { book_of K.meaning result.stage ≡ next K.cut (open_book K.meaning book.entry) (ask_of (length work.old) order.now) }
    ensures report { telling_of V.meaning result.report ≡ telling V.semiring V.meaning K.cut (open_book K.meaning book.entry) (ask_of (length work.old) order.now) }
    ensures spared { SparedSpace (open_space book.entry) (space_of result.stage) }
    ensures through { through_of result.stage ≡ open_through book.entry }
{
    match order {
        Order::Enter(path, places) => {
            let lent = (*places).min(work.len());
            let entered = book.enter(*path, &mut work[..lent]);
            let outcome = entered.map(|()| Answer::Taken).map_err(NotTaken::Refused);
            Stage::Open(book).told(outcome)
        }
        Order::Counts => Stage::Open(book).told(Ok(Answer::Taken)),
        Order::Seal => Stage::Sealed(book.seal()).told(Ok(Answer::Taken)),
        Order::Reopen | Order::Read(_) => Stage::Open(book).told(Err(NotTaken::NotAllowed)),
    }
}

fn step_sealed<'a, K: ProductKind, V: Measure>(
    book: SealedBook<'a, K>,
    order: &Order<V>,
) -> Stepped<'a, K, V>
    ensures next { (places : ℕ) → book_of K.meaning result.stage ≡ next K.cut (sealed_book K.meaning book.entry) (ask_of places order.now) }
    ensures report { (places : ℕ) → telling_of V.meaning result.report ≡ telling V.semiring V.meaning K.cut (sealed_book K.meaning book.entry) (ask_of places order.now) }
    ensures space { space_of result.stage ≡ sealed_space book.entry }
    ensures through { through_of result.stage ≡ sealed_through book.entry }
{
    match order {
        Order::Reopen => Stage::Open(book.reopen()).told(Ok(Answer::Taken)),
        Order::Counts => Stage::Sealed(book).told(Ok(Answer::Taken)),
        Order::Read(asked) => {
            let outcome = read(&book, asked);
            Stage::Sealed(book).told(outcome)
        }
        Order::Enter(_, _) | Order::Seal => Stage::Sealed(book).told(Err(NotTaken::NotAllowed)),
    }
}
