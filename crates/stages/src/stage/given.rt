// A reading as a step of a history.
ghost use Rattle.std.specs.Prelude.{◌≡◌};
ghost use Rattle.books.specs.Held.{sealed_book};
ghost use Rattle.readings.specs.Readings.{worth_of_book, worth_of_product};
ghost use Rattle.stages.specs.Asks.{read_told};
ghost use Rattle.stages.specs.Stages.{reading_of, weighing_of, told_of, worth_outcome};

use crate::answer::{Answer, Outcome};
use crate::order::{Reading, Weighing};
use books::SealedBook;
use measures::Measure;
use products::ProductKind;
use readings::{
    read_covered, read_group, read_group_count, read_must, read_product_worth, read_worth,
};
use refusals::Refusal;

// What the reading gives, or why it is refused.
pub(crate) fn read<K: ProductKind, V: Measure>(
    book: &SealedBook<K>,
    asked: &Reading<V>,
) -> Outcome<V>
    ensures { told_of V.meaning result ≡ read_told V.semiring V.meaning (sealed_book K.meaning book.now) (reading_of asked.now) }
{
    Ok(match asked {
        Reading::Worth(weighing) => Answer::Worth(worth(book, weighing)?),
        Reading::ProductWorth(k, weighing) => Answer::Worth(product_worth(book, *k, weighing)?),
        Reading::Covered => Answer::Number(read_covered(book) as usize),
        Reading::Must(k) => Answer::Parts(read_must(book, *k)?),
        Reading::GroupCount(k) => Answer::Number(read_group_count(book, *k)?),
        Reading::Group(k, j) => Answer::Parts(read_group(book, *k, *j)?),
    })
}

// Two functions, as the two readings take other arguments: one over the reading as a closure would have to say by the
// closure's clauses what is in the place.
fn worth<K: ProductKind, V: Measure>(
    book: &SealedBook<K>,
    weighing: &Weighing<V>,
) -> Result<V, Refusal>
    ensures { told_of V.meaning (worth_outcome result) ≡ read_told V.semiring V.meaning (sealed_book K.meaning book.now) (worth_of_book (weighing_of weighing.now)) }
{
    let mut place = V::zero();
    read_worth(book, &weighing.lend(), &mut place)?;
    Ok(place)
}

fn product_worth<K: ProductKind, V: Measure>(
    book: &SealedBook<K>,
    k: usize,
    weighing: &Weighing<V>,
) -> Result<V, Refusal>
    ensures { told_of V.meaning (worth_outcome result) ≡ read_told V.semiring V.meaning (sealed_book K.meaning book.now) (worth_of_product k (weighing_of weighing.now)) }
{
    let mut place = V::zero();
    read_product_worth(book, k, &weighing.lend(), &mut place)?;
    Ok(place)
}
