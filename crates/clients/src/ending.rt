// How a history of a client's ends.
use products::ProductKind;
use stages::{HistoryStep, Stage};
use thiserror::Error;

// Why a history ended before the client had asked for all: no memory is left to record a further step, or there are as many
// steps as can be counted.
#[derive(Clone, Copy, Debug, Error)]
pub enum CutShort {
    #[error("no memory is left for a further step")]
    NoMemory,
    #[error("no further step can be counted")]
    Full,
}

// The book after the last step, the steps, and whether the client had asked for all.
#[derive(Drop)]
pub struct Finished<'a, K: ProductKind, V> {
    pub stage: Stage<'a, K>,
    pub steps: Vec<HistoryStep<V>>,
    pub ending: Result<(), CutShort>,
}
