// The weights that a question is read with. One value holds a weight of every measure, side by side; a question is about
// one of them, and the others are one.
use crate::misread::Misread;
use lives::Life;
use measures::{Measure, Pair};
use numbers::{Count, Residue};
use refusals::Refusal;
use std::alloc::Global;

pub(crate) type Worth = Pair<Count, Pair<Residue, Life>>;

// The weight of each number.
pub(crate) fn weights_of<N: Copy, F: Fn(N) -> Result<Worth, Refusal>>(
    heap: Global,
    numbers: &[N],
    weight: F,
) -> Result<Vec<Worth>, Misread<'static>>
    requires { F.IsAlwaysCallable weight }
{
    let mut list = Vec::new(heap);
    for number in numbers {
        list.push(weight(*number)?)?;
    }
    Ok(list)
}

// Each of these puts its number into its own place of a worth.
pub(crate) fn count_weight(number: u32) -> Result<Worth, Refusal> {
    let mut weight = Worth::one();
    weight.first = Count::try_from(number)?;
    Ok(weight)
}

pub(crate) fn residue_weight(number: u32) -> Result<Worth, Refusal> {
    let mut weight = Worth::one();
    weight.second.first = Residue::from(number);
    Ok(weight)
}

pub(crate) fn life_weight(number: f64) -> Result<Worth, Refusal> {
    let mut weight = Worth::one();
    weight.second.second = Life::try_from(number)?;
    Ok(weight)
}
