// The bridge: five parts, and four paths on which it delivers.
use parts::{PartCount, PartNumber, PartSet};
use refusals::Refusal;

pub(crate) fn part_count() -> Result<PartCount, Refusal> {
    PartCount::try_from(5)
}

pub(crate) fn paths() -> Result<[PartSet; 4], Refusal> {
    Ok([
        set_of(&[0, 1])?,
        set_of(&[2, 3])?,
        set_of(&[0, 3, 4])?,
        set_of(&[1, 2, 4])?,
    ])
}

// From numbers; the console's reads words, and says which one it does not understand. One over both would take how a number is
// read, and be longer.
fn set_of(numbers: &[u32]) -> Result<PartSet, Refusal> {
    numbers.iter().try_fold(PartSet::none(), |set, number| {
        Ok(set.with(PartNumber::try_from(*number)?))
    })
}
