// The desk at which lines are read and answered, and which asks a book for steps.
mod settings;

use crate::answers;
use crate::command::{BookOrder, Command, Setting};
use crate::listing::Listing;
use crate::question::Question;
use crate::weights::Worth;
use crate::words::words_of;
use settings::Settings;
use stages::{Answer, HistoryStep, NotTaken, Order, Outcome, Reading};
use std::io::{BufRead, BufReader, Stdin};
use std::mem;

#[derive(Drop)]
pub(crate) struct Desk<'a> {
    rt: &'a HostRuntime,
    lines: BufReader<Stdin>,
    settings: Settings,
    // The question that the next worth answers.
    question: Option<Question>,
    listing: Listing,
    // What ended the history of a book: the line of another one, the end of the lines, or what kept them from being read.
    next: anyhow::Result<Option<BookOrder>>,
}

impl<'a> Desk<'a> {
    pub(crate) fn new(rt: &'a HostRuntime) -> anyhow::Result<Desk<'a>> {
        Ok(Desk {
            rt,
            lines: BufReader::new(rt.alloc(), rt.stdin())?,
            settings: Settings::new(rt.alloc()),
            question: None,
            listing: Listing::new(),
            next: Ok(None),
        })
    }

    // Answers lines until one starts a book.
    pub(crate) fn first_book(&mut self) -> anyhow::Result<Option<BookOrder>> {
        for _ in 0..u64::MAX {
            let Some(command) = self.next_command()? else {
                break;
            };
            match command {
                Command::Book(book) => return Ok(Some(book)),
                Command::Set(setting @ Setting::Space(_)) => self.settings.set(self.rt, setting)?,
                _ => self.rt.println("no book: start one with 'book'")?,
            }
        }
        Ok(None)
    }

    // The settings of a new book: weights of one, and no part pulled.
    pub(crate) fn start(&mut self, book: BookOrder) -> anyhow::Result<()> {
        self.settings.start(self.rt.alloc(), book.parts)?;
        Ok(())
    }

    // The book that was ordered while another one was at work.
    pub(crate) fn next_book(&mut self) -> anyhow::Result<Option<BookOrder>> {
        mem::replace(&mut self.next, Ok(None))
    }

    // Answers lines until one asks the book for a step. The line of a new book, and the end of the lines, end the
    // history.
    fn next_order(&mut self) -> anyhow::Result<Option<Order<Worth>>> {
        for _ in 0..u64::MAX {
            let Some(command) = self.next_command()? else {
                break;
            };
            match command {
                Command::Book(book) => {
                    self.next = Ok(Some(book));
                    break;
                }
                other => {
                    if let Some(order) = self.order_of(other)? {
                        return Ok(Some(order));
                    }
                }
            }
        }
        Ok(None)
    }

    // The order of a command; one that is for the desk alone is answered here.
    fn order_of(&mut self, command: Command) -> anyhow::Result<Option<Order<Worth>>> {
        match command {
            Command::Path(path) => Ok(Some(Order::Enter(path, self.settings.places))),
            Command::Counts => Ok(Some(Order::Counts)),
            Command::Seal => Ok(Some(Order::Seal)),
            Command::Reopen => Ok(Some(Order::Reopen)),
            Command::Covered => Ok(Some(Order::Read(Reading::Covered))),
            Command::Products => Ok(Some(Order::Read(Reading::Must(0)))),
            Command::Worth(question) => self.ask_worth(question),
            Command::Set(setting) => {
                self.settings.set(self.rt, setting)?;
                Ok(None)
            }
            // The line of a new book ends the history before this.
            Command::Book(_) => Ok(None),
        }
    }

    // The order of a question for a worth; weights that the measure refuses are answered here.
    fn ask_worth(&mut self, question: Question) -> anyhow::Result<Option<Order<Worth>>> {
        match self.settings.weighing(self.rt.alloc(), &question) {
            Ok(weighing) => {
                let reading = match question.product {
                    Some(product) => Reading::ProductWorth(product, weighing),
                    None => Reading::Worth(weighing),
                };
                self.question = Some(question);
                Ok(Some(Order::Read(reading)))
            }
            Err(misread) => {
                println!(self.rt; "{misread}")?;
                Ok(None)
            }
        }
    }

    // Reads lines until one has a command; none where they end. Bytes that are no text read as text all the same, so
    // that no line stops the reading.
    fn next_command(&mut self) -> anyhow::Result<Option<Command>> {
        let heap = self.rt.alloc();
        for _ in 0..u64::MAX {
            let mut bytes = Vec::new(heap);
            if self.lines.read_until(b'\n', &mut bytes)? == 0 {
                break;
            }
            let line = String::from_utf8_lossy(heap, bytes.as_slice())?;
            if let Some(command) = self.take_line(line.as_str())? {
                return Ok(Some(command));
            }
        }
        Ok(None)
    }

    // Echoes a line that has words, and reads its command; what is not understood is answered here.
    fn take_line(&self, line: &str) -> anyhow::Result<Option<Command>> {
        let mut words = words_of(line);
        let Some(first) = words.next() else {
            return Ok(None);
        };
        let echoed = line.trim_end();
        println!(self.rt; "> {echoed}")?;
        match Command::read(self.rt.alloc(), first, words) {
            Ok(command) => Ok(Some(command)),
            Err(misread) => {
                println!(self.rt; "{misread}")?;
                Ok(None)
            }
        }
    }

    // Answers the step that was taken last; a list of products goes on with its next reading.
    fn hear(&mut self, step: &HistoryStep<Worth>) -> anyhow::Result<Option<Order<Worth>>> {
        let question = self.question.take();
        match (&step.order, step.report.outcome) {
            (order, Err(NotTaken::NotAllowed)) => self.rt.println(answers::why_not_allowed(order))?,
            (Order::Read(read), outcome) => return self.hear_reading(read, outcome, question),
            (_, Err(NotTaken::Refused(refusal))) => answers::print_refusal(self.rt, refusal)?,
            (_, Ok(_)) => answers::print_taken(self.rt, step)?,
        }
        Ok(None)
    }

    fn hear_reading(
        &mut self,
        read: &Reading<Worth>,
        outcome: Outcome<Worth>,
        question: Option<Question>,
    ) -> anyhow::Result<Option<Order<Worth>>> {
        match (read, outcome) {
            (Reading::Must(_) | Reading::GroupCount(_) | Reading::Group(_, _), outcome) =>
                return Ok(self.listing.go_on(self.rt, read, outcome)?.map(Order::Read)),
            (_, Err(NotTaken::Refused(refusal))) => answers::print_refusal(self.rt, refusal)?,
            (_, Ok(Answer::Number(count))) => println!(self.rt; "covered: {count}")?,
            (_, Ok(Answer::Worth(worth))) => if let Some(question) = question {
                answers::print_worth(self.rt, &question, worth)?;
            },
            _ => {}
        }
        Ok(None)
    }

    // Answers the step that was taken last, and goes on to the next one.
    fn answer_and_ask(
        &mut self,
        past: &[HistoryStep<Worth>],
    ) -> anyhow::Result<Option<Order<Worth>>> {
        if let Some(step) = past.last() {
            if let Some(order) = self.hear(step)? {
                return Ok(Some(order));
            }
        }
        self.next_order()
    }

    // What is asked of the book next, after the steps so far; nothing more ends the history.
    pub(crate) fn ask(&mut self, past: &[HistoryStep<Worth>]) -> Option<Order<Worth>> {
        match self.answer_and_ask(past) {
            Ok(order) => order,
            Err(error) => {
                self.next = Err(error);
                None
            }
        }
    }
}
