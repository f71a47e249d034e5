// What is set at the desk: the working places, the lists of weights, and the card.
use crate::command::Setting;
use crate::misread::Misread;
use crate::question::{Asked, Question};
use crate::weights::{Worth, count_weight, life_weight, residue_weight, weights_of};
use books::LEAST_PLACES;
use cards::{Card, card_on_trials};
use measures::Measure;
use parts::{PartCount, PartSet};
use stages::Weighing;
use std::alloc::{AllocError, Global};
use std::io;

#[derive(Drop)]
pub(crate) struct Settings {
    // How many places of the working space the following entries have.
    pub(crate) places: usize,
    // How many parts the book has.
    parts: usize,
    // Two lists, as a line gives one of them.
    works: Vec<u32>,
    fails: Vec<u32>,
    card: Card,
}

impl Settings {
    pub(crate) fn new(heap: Global) -> Settings {
        Settings {
            places: LEAST_PLACES,
            parts: 0,
            works: Vec::new(heap),
            fails: Vec::new(heap),
            card: Card::new(PartSet::none()),
        }
    }

    // A new book: weights of one, and no part pulled. The working places stay.
    pub(crate) fn start(&mut self, heap: Global, parts: PartCount) -> Result<(), AllocError> {
        self.parts = parts.count() as usize;
        self.works = vec![in heap; 1; self.parts]?;
        self.fails = vec![in heap; 1; self.parts]?;
        self.card = Card::new(PartSet::none());
        Ok(())
    }

    // Sets what the line asks for, and answers it.
    pub(crate) fn set(&mut self, rt: &HostRuntime, setting: Setting) -> io::Result<()> {
        match setting {
            Setting::Space(places) => {
                self.places = places;
                println!(rt; "working space: {places}")
            }
            Setting::Works(weights) => {
                let count = weights.len();
                self.works = weights;
                println!(rt; "works: {count} weights")
            }
            Setting::Fails(weights) => {
                let count = weights.len();
                self.fails = weights;
                println!(rt; "fails: {count} weights")
            }
            Setting::Pulled(set) => {
                self.card = Card::new(set);
                println!(rt; "pulled: {set}")
            }
        }
    }

    // The weights for a question, with the card as it is while its trials last: the lists of numbers for a count or a
    // residue; for a life its own list, with lives of 1.0 for as many parts.
    pub(crate) fn weighing(
        &mut self,
        heap: Global,
        question: &Question,
    ) -> Result<Weighing<Worth>, Misread<'static>> {
        let card = card_on_trials(&mut self.card, question.trials.as_slice());
        let (works, fails) = (self.works.as_slice(), self.fails.as_slice());
        let (works, fails) = match &question.asked {
            Asked::Count => (
                weights_of(heap, works, count_weight)?,
                weights_of(heap, fails, count_weight)?,
            ),
            Asked::Residue => (
                weights_of(heap, works, residue_weight)?,
                weights_of(heap, fails, residue_weight)?,
            ),
            Asked::Life(lives) => (
                weights_of(heap, lives.as_slice(), life_weight)?,
                vec![in heap; Worth::one(); self.parts]?,
            ),
        };
        Ok(Weighing { works, fails, card })
    }
}
