// Readings of the bridge in both kinds, and each refusal of a reading.
use books::{OpenBook, SealedBook};
use cards::Card;
use lives::Life;
use measures::Measure;
use numbers::{Count, Residue};
use parts::{PartCount, PartSet};
use products::{ProductKind, blank_products};
use readings::{
    read_covered, read_group, read_group_count, read_must, read_product_worth, read_worth,
};
use refusals::Refusal;
use std::alloc::Global;
use std::process::Abort;
use std::test::Fail;
use weighing::Weighing;

// Enters the paths of the bridge.
fn enter_bridge<K: ProductKind>(book: &mut OpenBook<K>, work: &mut [K]) -> Result<(), Fail> {
    for bits in [0b00011, 0b01100, 0b11001, 0b10110] {
        book.enter(PartSet::try_from(bits)?, work)?;
    }
    Ok(())
}

// The worth of the book with these parts pulled.
fn worth<K: ProductKind, V: Measure>(
    book: &SealedBook<K>,
    works: &[V],
    fails: &[V],
    pulled: u32,
) -> Result<V, Fail> {
    let card = &Card::new(PartSet::try_from(pulled)?);
    let mut place = V::zero();
    read_worth(book, &Weighing { works, fails, card }, &mut place)?;
    Ok(place)
}

// The figures of the bridge in products of the kind.
fn figures<K: ProductKind>(rt: &impl Abort, heap: Global) -> Result<(), Fail> {
    let mut slots = blank_products::<K>(heap, 8)?;
    let mut work = blank_products(heap, 64)?;
    let mut book = OpenBook::new(PartCount::try_from(5)?, slots.as_mut_slice());
    enter_bridge(&mut book, work.as_mut_slice())?;
    let book = &book.seal();
    let ones = [Count::one(); 5];
    assert_eq!(rt; worth(book, &ones, &ones, 0)?, Count::try_from(16)?);
    assert_eq!(rt; worth(book, &ones, &ones, 1)?, Count::try_from(5)?);
    let threes = [Residue::from(3); 5];
    let minus_twos = [Residue::from(2_147_483_645); 5];
    assert_eq!(rt; worth(book, &threes, &minus_twos, 0)?, Residue::from(153));
    let lives = [
        Life::try_from(0.5)?,
        Life::try_from(0.25)?,
        Life::try_from(0.75)?,
        Life::try_from(0.75)?,
        Life::try_from(1.0)?,
    ];
    let whole = [Life::one(); 5];
    assert_eq!(rt; worth(book, &lives, &whole, 0)?, Life::try_from(0.75)?);
    assert_eq!(rt; read_covered(book), 16);
    Ok(())
}

#[test]
fn figures_in_both_kinds(rt: HostRuntime) -> Result<(), Fail> {
    figures::<group::GroupProduct>(&rt, rt.alloc())?;
    figures::<single::SingleProduct>(&rt, rt.alloc())
}

// A book borrows its slots, so each test makes its own.
#[test]
fn products_of_the_bridge(rt: HostRuntime) -> Result<(), Fail> {
    let mut slots = blank_products::<group::GroupProduct>(rt.alloc(), 8)?;
    let mut work = blank_products(rt.alloc(), 64)?;
    let mut book = OpenBook::new(PartCount::try_from(5)?, slots.as_mut_slice());
    enter_bridge(&mut book, work.as_mut_slice())?;
    let book = book.seal();
    assert_eq!(rt; read_must(&book, 2)?.bits(), 0b11001);
    assert_eq!(rt; read_group_count(&book, 2)?, 2);
    assert_eq!(rt; read_group(&book, 2, 1)?.bits(), 0b00100);
    let ones = [Count::one(); 5];
    let weighing = Weighing {
        works: &ones,
        fails: &ones,
        card: &Card::new(PartSet::none()),
    };
    let mut place = Count::zero();
    read_product_worth(&book, 1, &weighing, &mut place)?;
    assert_eq!(rt; place, Count::try_from(6)?);
    Ok(())
}

// The refusal of the book's worth or of a product's, if any, by the number that its table fixes.
fn refused<K: ProductKind>(
    book: &SealedBook<K>,
    product: Option<usize>,
    weighing: &Weighing<Count>,
    place: &mut Count,
) -> Option<u8> {
    let read = match product {
        Some(k) => read_product_worth(book, k, weighing, place),
        None => read_worth(book, weighing, place),
    };
    read.err().map(Refusal::number)
}

#[test]
fn refusals_of_readings(rt: HostRuntime) -> Result<(), Fail> {
    let mut slots = blank_products::<group::GroupProduct>(rt.alloc(), 8)?;
    let mut work = blank_products(rt.alloc(), 64)?;
    let mut book = OpenBook::new(PartCount::try_from(5)?, slots.as_mut_slice());
    enter_bridge(&mut book, work.as_mut_slice())?;
    let book = book.seal();
    let mut place = Count::try_from(7)?;
    let five = [Count::one(); 5];
    let six = [Count::one(); 6];
    let none = Card::new(PartSet::none());
    let outside = Card::new(PartSet::try_from(0b100000)?);
    let weighing = Weighing {
        works: &six,
        fails: &six,
        card: &outside,
    };
    assert!(rt; refused(&book, None, &weighing, &mut place) == Some(31));
    let weighing = Weighing {
        card: &none,
        ..weighing
    };
    assert!(rt; refused(&book, None, &weighing, &mut place) == Some(32));
    let weighing = Weighing {
        works: &five,
        ..weighing
    };
    assert!(rt; refused(&book, Some(9), &weighing, &mut place) == Some(33));
    let weighing = Weighing {
        fails: &five,
        ..weighing
    };
    assert!(rt; refused(&book, Some(4), &weighing, &mut place) == Some(34));
    assert_eq!(rt; place, Count::try_from(7)?);
    assert!(rt; read_must(&book, 4).is_err());
    assert!(rt; read_group_count(&book, 4).is_err());
    let group = read_group(&book, 1, 1).map(PartSet::bits);
    assert!(rt; group.map_err(Refusal::number) == Err(35));
    Ok(())
}
