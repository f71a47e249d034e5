// What a line asks for.
use crate::misread::Misread;
use crate::question::Question;
use crate::words::{Words, due, end, number, small_number, weights};
use books::MOST_SLOTS;
use parts::{PartCount, PartNumber, PartSet};
use std::alloc::Global;

#[derive(Clone, Copy)]
pub(crate) enum Kind {
    Single,
    Group,
}

// A new book, with so many slots.
#[derive(Clone, Copy)]
pub(crate) struct BookOrder {
    pub(crate) kind: Kind,
    pub(crate) parts: PartCount,
    pub(crate) slots: usize,
}

#[derive(Drop)]
pub(crate) enum Command {
    Book(BookOrder),
    Set(Setting),
    Path(PartSet),
    Counts,
    Seal,
    Reopen,
    Products,
    Covered,
    Worth(Question),
}

// What is set for the steps that follow: the working places, the weights, and the parts that are pulled.
#[derive(Drop)]
pub(crate) enum Setting {
    Space(usize),
    Works(Vec<u32>),
    Fails(Vec<u32>),
    Pulled(PartSet),
}

impl Command {
    // The command of a line, by its first word and those that follow.
    pub(crate) fn read<'a>(
        heap: Global,
        first: &'a str,
        words: Words<'a>,
    ) -> Result<Command, Misread<'a>> {
        match first {
            "book" => Ok(Command::Book(BookOrder::read(words)?)),
            "space" => Ok(Command::Set(Setting::Space(lone_number(words)?))),
            "path" => Ok(Command::Path(set_of(words)?)),
            "counts" => alone(words, Command::Counts),
            "seal" => alone(words, Command::Seal),
            "reopen" => alone(words, Command::Reopen),
            "works" => Ok(Command::Set(Setting::Works(weights(heap, words)?))),
            "fails" => Ok(Command::Set(Setting::Fails(weights(heap, words)?))),
            "pulled" => Ok(Command::Set(Setting::Pulled(set_of(words)?))),
            "products" => alone(words, Command::Products),
            "covered" => alone(words, Command::Covered),
            _ => Ok(Command::Worth(Question::read(heap, first, words)?)),
        }
    }
}

impl BookOrder {
    // Kind, part count and slots; as many as a book uses where the line has no number for them.
    fn read<'a>(mut words: Words<'a>) -> Result<BookOrder, Misread<'a>> {
        let kind = Kind::try_from(words.next().ok_or(Misread::KindMissing)?)?;
        let parts = small_number(due(&mut words)?)?;
        let slots = match words.next() {
            Some(word) => number(word)?,
            None => MOST_SLOTS,
        };
        end(&mut words)?;
        let parts = PartCount::try_from(parts)?;
        Ok(BookOrder { kind, parts, slots })
    }
}

impl<'a> TryFrom<&'a str> for Kind {
    type Error = Misread<'a>;

    fn try_from(word: &'a str) -> Result<Kind, Misread<'a>> {
        match word {
            "a" => Ok(Kind::Single),
            "h" => Ok(Kind::Group),
            _ => Err(Misread::Unknown(word)),
        }
    }
}

fn alone<'a>(mut words: Words<'a>, command: Command) -> Result<Command, Misread<'a>> {
    end(&mut words)?;
    Ok(command)
}

fn lone_number<'a>(mut words: Words<'a>) -> Result<usize, Misread<'a>> {
    let value = number(due(&mut words)?)?;
    end(&mut words)?;
    Ok(value)
}

// The set of the parts with these numbers. The workbench has one over numbers, which cannot be misread.
fn set_of<'a>(words: Words<'a>) -> Result<PartSet, Misread<'a>> {
    let mut set = PartSet::none();
    for word in words {
        set = set.with(PartNumber::try_from(small_number(word)?)?);
    }
    Ok(set)
}
