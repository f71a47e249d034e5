// What a book answers.
ghost use Rattle.std.specs.Prelude.{◌≡◌};
ghost use Rattle.stages.specs.declared.answer.NotTaken.TheVariants.{Refused};

use parts::PartSet;
use refusals::Refusal;
use thiserror::Error;

// The answer to a step that is taken: a reading gives a worth, a number or a set of parts.
#[derive(Clone, Copy)]
pub enum Answer<V> {
    Taken,
    Worth(V),
    Number(usize),
    Parts(PartSet),
}

// Why a step is not taken: it is refused, or the book, as it is open or sealed, does not allow it.
#[derive(Clone, Copy, Debug, Error)]
pub enum NotTaken {
    #[error(transparent)]
    Refused(Refusal),
    #[error("the book, as it is open or sealed, does not allow this")]
    NotAllowed,
}

// Not derived: a derive would not say which reason it makes.
impl From<Refusal> for NotTaken {
    ghost from_gives = { λ refusal reason. reason ≡ Refused refusal };

    fn from(refusal: Refusal) -> NotTaken {
        NotTaken::Refused(refusal)
    }
}

pub type Outcome<V> = Result<Answer<V>, NotTaken>;

// What is told of a step: its outcome, and how many paths and products the book has after it.
#[derive(Clone, Copy)]
pub struct Report<V> {
    pub outcome: Outcome<V>,
    pub paths: usize,
    pub products: usize,
}
