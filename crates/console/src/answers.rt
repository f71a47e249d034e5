// What the console says of a step and of a reading.
use crate::question::{Asked, Question};
use crate::weights::Worth;
use refusals::Refusal;
use stages::{HistoryStep, Order};
use std::io;

pub(crate) fn print_taken(rt: &HostRuntime, step: &HistoryStep<Worth>) -> io::Result<()> {
    let paths = step.report.paths;
    let products = step.report.products;
    match &step.order {
        Order::Enter(_, _) => println!(rt; "entered: {paths} paths, {products} products"),
        Order::Counts => println!(rt; "counts: {paths} paths, {products} products"),
        Order::Seal => rt.println("sealed"),
        Order::Reopen => rt.println("reopened"),
        Order::Read(_) => Ok(()),
    }
}

pub(crate) fn print_refusal(rt: &HostRuntime, refusal: Refusal) -> io::Result<()> {
    let number = refusal.number();
    println!(rt; "refused {number}: {refusal}")
}

// What to do first, where the book, as it is open or sealed, does not allow the step.
pub(crate) fn why_not_allowed(order: &Order<Worth>) -> &'static str {
    match order {
        Order::Enter(_, _) => "sealed: reopen first",
        Order::Seal => "already sealed",
        Order::Reopen => "already open",
        Order::Counts | Order::Read(_) => "open: seal first",
    }
}

// The answer to a question for a worth: the trials, then what was asked and what it is worth.
pub(crate) fn print_worth(rt: &HostRuntime, question: &Question, worth: Worth) -> io::Result<()> {
    for part in question.trials.as_slice() {
        let index = part.index();
        print!(rt; "with part {index} pulled: ")?;
    }
    match &question.asked {
        Asked::Count => rt.print("count")?,
        Asked::Residue => rt.print("residue")?,
        Asked::Life(_) => rt.print("life")?,
    }
    if let Some(product) = question.product {
        print!(rt; " of product {product}")?;
    }
    match &question.asked {
        Asked::Count => {
            let count = worth.first.meant();
            println!(rt; ": {count}")
        }
        Asked::Residue => {
            let residue = worth.second.first.meant();
            println!(rt; ": {residue}")
        }
        Asked::Life(_) => {
            let life = worth.second.second.value;
            println!(rt; ": {life}")
        }
    }
}
