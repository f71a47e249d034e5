// Why a line is not understood, or cannot be answered.
use refusals::Refusal;
use std::alloc::AllocError;
use thiserror::Error;

// A text here is the word that is not understood.
#[derive(Clone, Copy, Debug, Error)]
pub(crate) enum Misread<'a> {
    #[error("unknown: {0}")]
    Unknown(&'a str),
    #[error("not a number: {0}")]
    NotANumber(&'a str),
    #[error("one word too many: {0}")]
    OneTooMany(&'a str),
    #[error("missing: a kind, a or h")]
    KindMissing,
    #[error("missing: a number")]
    NumberMissing,
    #[error("missing: count, residue or life")]
    ReadingMissing,
    #[error("refused {}: {}", .0.number(), .0)]
    Refused(#[from] Refusal),
    #[error("no memory is left for this line")]
    NoMemory(#[from(alloc)] AllocError),
}
