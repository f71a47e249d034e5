// Books of both kinds: the bridge, and the refusals of entries at their limits.
use books::OpenBook;
use parts::{PartCount, PartSet};
use products::{ProductKind, blank_products};
use refusals::Refusal;
use std::alloc::Global;
use std::test::Fail;

// What came of a run of entries: each refusal, if any, by the number that its table fixes, and the two counts at the end.
#[derive(Drop)]
struct Run {
    refused: Vec<Option<u8>>,
    counts: (usize, usize),
}

// Enters the sets with these bits into a new book.
fn enter_all<K: ProductKind>(
    heap: Global,
    parts: u32,
    slots: usize,
    places: usize,
    paths: &[u32],
) -> Result<Run, Fail> {
    let mut slots = blank_products::<K>(heap, slots)?;
    let mut work = blank_products::<K>(heap, places)?;
    let mut refused = Vec::new(heap);
    let mut book = OpenBook::new(PartCount::try_from(parts)?, slots.as_mut_slice());
    for path in paths {
        let entered = book.enter(PartSet::try_from(*path)?, work.as_mut_slice());
        refused.push(entered.err().map(Refusal::number))?;
    }
    let counts = book.counts();
    Ok(Run { refused, counts })
}

// Slots that hold nothing yet hold the product of all states.
#[test]
fn slots_to_begin_with(rt: HostRuntime) -> Result<(), Fail> {
    let slots = blank_products::<group::GroupProduct>(rt.alloc(), 3)?;
    assert_eq!(rt; slots.len(), 3);
    for slot in &slots {
        assert!(rt; slot.must().is_empty());
        assert_eq!(rt; slot.group_count(), 0);
    }
    Ok(())
}

#[test]
fn bridge_in_both_kinds(rt: HostRuntime) -> Result<(), Fail> {
    let bridge = [0b00011, 0b01100, 0b11001, 0b10110];
    let group = enter_all::<group::GroupProduct>(rt.alloc(), 5, 300, 64, &bridge)?;
    assert!(rt; group.counts == (4, 4));
    let single = enter_all::<single::SingleProduct>(rt.alloc(), 5, 300, 64, &bridge)?;
    assert!(rt; single.counts == (4, 5));
    Ok(())
}

#[test]
fn refusals_of_entries(rt: HostRuntime) -> Result<(), Fail> {
    let paths = [0, 0b100000, 0b00011, 0b00111, 0b01100];
    let run = enter_all::<group::GroupProduct>(rt.alloc(), 5, 300, 64, &paths)?;
    assert!(rt; run.refused.as_slice() == [Some(21), Some(22), None, Some(24), None].as_slice());
    let short = enter_all::<group::GroupProduct>(rt.alloc(), 5, 300, 63, &paths)?;
    assert!(rt;
        short.refused.as_slice() == [Some(21), Some(22), Some(23), Some(23), Some(23)].as_slice()
    );
    Ok(())
}

#[test]
fn slots_just_enough_and_too_few(rt: HostRuntime) -> Result<(), Fail> {
    let paths = [0b00011, 0b01100];
    let enough = enter_all::<single::SingleProduct>(rt.alloc(), 5, 3, 64, &paths)?;
    assert!(rt; enough.refused.as_slice() == [None, None].as_slice());
    let few = enter_all::<single::SingleProduct>(rt.alloc(), 5, 2, 64, &paths)?;
    assert!(rt; few.refused.as_slice() == [None, Some(26)].as_slice());
    assert!(rt; few.counts == (1, 1));
    Ok(())
}

// Any two of twelve parts make a path: 66 paths, of which the book takes 64. Here i and j are parts, and no places of a list.
#[test]
fn no_more_than_64_paths(rt: HostRuntime) -> Result<(), Fail> {
    let mut paths = Vec::new(rt.alloc());
    for i in 0..12u32 {
        for j in 0..i {
            paths.push(1u32 << i | 1u32 << j)?;
        }
    }
    let run = enter_all::<single::SingleProduct>(rt.alloc(), 12, 300, 64, paths.as_slice())?;
    assert!(rt; run.counts == (64, 64));
    assert!(rt; run.refused.last().copied() == Some(Some(25)));
    Ok(())
}
