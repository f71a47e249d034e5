// The largest and the smallest value of each checked type, and the first beyond. A refusal is held by the number that its
// table fixes.
use parts::{PartCount, PartNumber, PartSet};
use refusals::Refusal;
use std::test::Fail;

#[test]
fn part_counts(rt: HostRuntime) -> Result<(), Fail> {
    assert_eq!(rt; PartCount::try_from(24)?.count(), 24);
    assert_eq!(rt; PartCount::try_from(1).err().map(Refusal::number), None);
    assert_eq!(rt; PartCount::try_from(0).err().map(Refusal::number), Some(11));
    assert_eq!(rt;
        PartCount::try_from(25).err().map(Refusal::number),
        Some(11)
    );
    Ok(())
}

#[test]
fn part_sets(rt: HostRuntime) -> Result<(), Fail> {
    assert_eq!(rt; PartSet::try_from(16_777_215)?.count(), 24);
    assert_eq!(rt;
        PartSet::try_from(16_777_216).err().map(Refusal::number),
        Some(12)
    );
    Ok(())
}

#[test]
fn part_numbers(rt: HostRuntime) -> Result<(), Fail> {
    assert_eq!(rt; PartNumber::try_from(23)?.index(), 23);
    assert_eq!(rt;
        PartNumber::try_from(24).err().map(Refusal::number),
        Some(13)
    );
    Ok(())
}

#[test]
fn refusals_say_why(rt: HostRuntime) -> Result<(), Fail> {
    let heap = rt.alloc();
    let refusal = Refusal::PathAlreadyCovered;
    let text = format!(in heap; "{refusal}")?;
    assert!(rt; text.as_str() == "the path contains a path that is already entered");
    Ok(())
}
