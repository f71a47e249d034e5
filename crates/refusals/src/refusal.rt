// The refusals. A refusal is the answer of a call that changes nothing because what it was given is not allowed.
ghost use Rattle.std.specs.Prelude.{◌≡◌};
ghost use Rattle.refusals.specs.Numbers.{number_of};

use thiserror::Error;

// The text of each is its sentence, for whoever works at the machine.
#[derive(Clone, Copy, Debug, PartialEq, Eq, Error)]
pub enum Refusal {
    // Making a part count, a set or a part number.
    #[error("a machine has from 1 to 24 parts")]
    PartCountOutOfRange = 11,
    #[error("a set names only parts 0 to 23")]
    PartSetOutOfRange = 12,
    #[error("a part has a number from 0 to 23")]
    PartNumberOutOfRange = 13,
    // Entering a path.
    #[error("the path names no part")]
    PathEmpty = 21,
    #[error("the path names a part that the machine does not have")]
    PathOutsideMachine = 22,
    #[error("the working space has fewer than 64 products")]
    WorkingSpaceTooSmall = 23,
    #[error("the path contains a path that is already entered")]
    PathAlreadyCovered = 24,
    #[error("64 paths are entered, and the book takes no more")]
    TooManyPaths = 25,
    #[error("the products would not fit the book's slots")]
    TooManyProducts = 26,
    // Reading a sealed book.
    #[error("a pulled part is not a part of the machine")]
    PulledPartOutsideMachine = 31,
    #[error("the works list does not have one weight for each part")]
    WorksListWrongLength = 32,
    #[error("the fails list does not have one weight for each part")]
    FailsListWrongLength = 33,
    #[error("the book has no product of that number")]
    NoSuchProduct = 34,
    #[error("the product has no lack group of that number")]
    NoSuchGroup = 35,
    // Making a value of a measure.
    #[error("the value is outside what its measure allows")]
    ValueOutOfRange = 36,
    // Reading and writing a machine file.
    #[error("a field goes beyond the end of the file")]
    FieldBeyondEnd = 41,
    #[error("a field has a tag that no machine file has")]
    UnknownTag = 42,
    #[error("a field does not have the length that its tag asks for")]
    FieldWrongLength = 43,
    #[error("a field stands where it is not due")]
    FieldNotDue = 44,
    #[error("the file ends while a field is due")]
    FieldMissing = 45,
    #[error("a field holds what does not fit the machine")]
    FieldWrongContent = 46,
    #[error("the buffer is too short for the file")]
    BufferTooShort = 47,
}

impl Refusal {
    // The number that stands for the refusal in print and in a file fault.
    pub fn number(self) -> u8
        ensures { result ≡ number_of self }
    {
        self as u8
    }
}
