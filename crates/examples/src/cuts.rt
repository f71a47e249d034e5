// Cutting paths off products, held to what the pieces are in print.
use group::GroupProduct;
use parts::PartSet;
use products::{Printed, ProductKind, pieces_that_hold};
use single::SingleProduct;
use std::alloc::Global;
use std::process::Abort;
use std::test::Fail;

// Are the pieces of the product, when the path with these bits is cut off, those that are written?
fn cut_gives<K: ProductKind>(
    rt: &impl Abort,
    heap: Global,
    product: &K,
    path: u32,
    written: &[&str],
) -> Result<(), Fail> {
    let path = PartSet::try_from(path)?;
    assert_eq!(rt; product.piece_count(path), written.len());
    for (k, text) in written.iter().enumerate() {
        let piece = Printed(product.piece(path, k));
        let printed = format!(in heap; "{piece}")?;
        assert!(rt; printed.as_str() == *text);
    }
    Ok(())
}

#[test]
fn single_cuts(rt: HostRuntime) -> Result<(), Fail> {
    let heap = rt.alloc();
    let start = SingleProduct::start(PartSet::try_from(0b00001)?);
    let failed = start.piece(PartSet::try_from(0b00010)?, 0);
    cut_gives(&rt, heap, &start, 0b00010, &["{0} lack {1}"])?;
    cut_gives(
        &rt,
        heap,
        &failed,
        0b11100,
        &[
            "{0} lack {1} {2}",
            "{0,2} lack {1} {3}",
            "{0,2,3} lack {1} {4}",
        ],
    )?;
    cut_gives(&rt, heap, &failed, 0b00110, &["{0} lack {1}"])?;
    cut_gives(&rt, heap, &failed, 0b00001, &[])
}

#[test]
fn states_of_pieces(rt: HostRuntime) -> Result<(), Fail> {
    let start = SingleProduct::start(PartSet::try_from(0b00001)?);
    let path = PartSet::try_from(0b00110)?;
    assert_eq!(rt;
        pieces_that_hold(&start, path, PartSet::try_from(0b00011)?),
        1
    );
    assert_eq!(rt;
        pieces_that_hold(&start, path, PartSet::try_from(0b00111)?),
        0
    );
    Ok(())
}

#[test]
fn group_cuts(rt: HostRuntime) -> Result<(), Fail> {
    let heap = rt.alloc();
    let start = GroupProduct::start(PartSet::try_from(0b00001)?);
    let grouped = start.piece(PartSet::try_from(0b01110)?, 0);
    cut_gives(&rt, heap, &start, 0b01110, &["{0} lack {1,2,3}"])?;
    cut_gives(
        &rt,
        heap,
        &grouped,
        0b10100,
        &["{0} lack {2}", "{0,2} lack {1,3} {4}"],
    )?;
    cut_gives(&rt, heap, &grouped, 0b01100, &["{0} lack {2,3}"])?;
    cut_gives(&rt, heap, &grouped, 0b11110, &["{0} lack {1,2,3}"])?;
    cut_gives(&rt, heap, &grouped, 0b00001, &[])
}
