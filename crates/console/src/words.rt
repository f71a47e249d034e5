// The words of a line, taken one after the other, and the numbers among them.
use crate::misread::Misread;
use refusals::Refusal;
use std::alloc::Global;
use std::str::SplitAsciiWhitespace;

// The words of a line that are still to be read.
pub(crate) type Words<'a> = SplitAsciiWhitespace<'a>;

// The words before a `#`, which starts a comment.
pub(crate) fn words_of(line: &str) -> Words<'_> {
    let said = match line.split_once('#') {
        Some((said, _)) => said,
        None => line,
    };
    said.split_ascii_whitespace()
}

// A number in decimal digits; one that is too large counts as the largest.
pub(crate) fn number<'a>(word: &'a str) -> Result<usize, Misread<'a>> {
    let mut value = 0usize;
    for byte in word.bytes() {
        if !byte.is_ascii_digit() {
            return Err(Misread::NotANumber(word));
        }
        let digit = usize::from(byte - b'0');
        value = value.saturating_mul(10).saturating_add(digit);
    }
    Ok(value)
}

// The same for a number of 32 bits.
pub(crate) fn small_number<'a>(word: &'a str) -> Result<u32, Misread<'a>> {
    Ok(u32::try_from(number(word)?).unwrap_or(u32::MAX))
}

// The next word, where a number is due.
pub(crate) fn due<'a>(words: &mut Words<'a>) -> Result<&'a str, Misread<'a>> {
    words.next().ok_or(Misread::NumberMissing)
}

// Refuses a further word.
pub(crate) fn end<'a>(words: &mut Words<'a>) -> Result<(), Misread<'a>> {
    match words.next() {
        Some(word) => Err(Misread::OneTooMany(word)),
        None => Ok(()),
    }
}

// The words as weights: numbers of 32 bits.
pub(crate) fn weights<'a>(heap: Global, words: Words<'a>) -> Result<Vec<u32>, Misread<'a>> {
    words.map(weight).try_collect(heap)
}

fn weight<'a>(word: &'a str) -> Result<u32, Misread<'a>> {
    u32::try_from(number(word)?).map_err(|_| Misread::Refused(Refusal::ValueOutOfRange))
}

// The words as numbers, with a point where they are not whole.
pub(crate) fn reals<'a>(heap: Global, words: Words<'a>) -> Result<Vec<f64>, Misread<'a>> {
    words.map(real).try_collect(heap)
}

fn real<'a>(word: &'a str) -> Result<f64, Misread<'a>> {
    word.parse::<f64>().map_err(|_| Misread::NotANumber(word))
}
