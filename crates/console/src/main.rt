// The console: reads lines from standard input, each a command for a book, and answers them one by one. A line that
// says nothing known gets an answer too, and the next one is read.
#![tactic(auto)]

mod answers;
mod command;
mod desk;
mod listing;
mod misread;
mod question;
mod weights;
mod words;

use books::{LEAST_PLACES, MOST_SLOTS};
use clients::replay;
use command::{BookOrder, Kind};
use desk::Desk;
use products::{ProductKind, blank_products};
use stages::HistoryStep;
use weights::Worth;

fn main(rt: HostRuntime) -> anyhow::Result<()> {
    run(&rt)
}

// One book after the other, until the lines end.
fn run(rt: &HostRuntime) -> anyhow::Result<()> {
    let mut desk = Desk::new(rt)?;
    let mut ordered = desk.first_book()?;
    for _ in 0..u64::MAX {
        let Some(book) = ordered else {
            break;
        };
        ordered = match book.kind {
            Kind::Single => work_on::<single::SingleProduct>(rt, book, &mut desk)?,
            Kind::Group => work_on::<group::GroupProduct>(rt, book, &mut desk)?,
        };
    }
    Ok(())
}

// Makes a book and takes the desk's orders for it; answers which book is ordered next.
fn work_on<K: ProductKind>(
    rt: &HostRuntime,
    book: BookOrder,
    desk: &mut Desk<'_>,
) -> anyhow::Result<Option<BookOrder>> {
    desk.start(book)?;
    let heap = rt.alloc();
    // Slots and places beyond those that a book uses would never be touched, so no more are set aside.
    let mut slots = blank_products::<K>(heap, book.slots.min(MOST_SLOTS))?;
    let mut work = blank_products::<K>(heap, LEAST_PLACES)?;
    let letter = K::LETTER;
    let parts = book.parts.count();
    let count = book.slots;
    println!(rt; "open book: kind {letter}, {parts} parts, {count} slots")?;
    let finished = replay(
        book.parts,
        slots.as_mut_slice(),
        work.as_mut_slice(),
        &mut |past: &[HistoryStep<Worth>]| desk.ask(past),
        Vec::new(heap),
    );
    finished.ending?;
    desk.next_book()
}
