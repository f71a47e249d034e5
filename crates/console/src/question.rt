// A question for a worth: by which measure, of the book or of a product, and with which parts pulled on trial.
use crate::misread::Misread;
use crate::words::{Words, end, number, reals, small_number};
use parts::PartNumber;
use std::alloc::Global;

#[derive(Drop)]
pub(crate) enum Asked {
    Count,
    Residue,
    // With the works lives of this reading.
    Life(Vec<f64>),
}

#[derive(Drop)]
pub(crate) struct Question {
    pub(crate) trials: Vec<PartNumber>,
    pub(crate) asked: Asked,
    pub(crate) product: Option<usize>,
}

impl Question {
    // `pull 0 pull 2 count 1`: trials first, then the measure, then a product number or lives.
    pub(crate) fn read<'a>(
        heap: Global,
        first: &'a str,
        mut words: Words<'a>,
    ) -> Result<Question, Misread<'a>> {
        let mut trials = Vec::new(heap);
        let mut word = first;
        while word == "pull" {
            let index = small_number(words.next().ok_or(Misread::NumberMissing)?)?;
            trials.push(PartNumber::try_from(index)?)?;
            word = words.next().ok_or(Misread::ReadingMissing)?;
        }
        let (asked, product) = match word {
            "count" => (Asked::Count, product_of(words)?),
            "residue" => (Asked::Residue, product_of(words)?),
            "life" => (Asked::Life(reals(heap, words)?), None),
            _ => return Err(Misread::Unknown(word)),
        };
        Ok(Question {
            trials,
            asked,
            product,
        })
    }
}

// The product number, where there is one.
fn product_of<'a>(mut words: Words<'a>) -> Result<Option<usize>, Misread<'a>> {
    let Some(word) = words.next() else {
        return Ok(None);
    };
    let product = number(word)?;
    end(&mut words)?;
    Ok(Some(product))
}
