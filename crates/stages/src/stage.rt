// A book that is open or sealed, and the steps that it takes.
pub mod given;
pub mod step;

use crate::answer::Report;
use crate::order::Order;
use books::{OpenBook, SealedBook};
use products::ProductKind;

#[derive(Drop)]
pub enum Stage<'a, K: ProductKind> {
    Open(OpenBook<'a, K>),
    Sealed(SealedBook<'a, K>),
}

// The book after a step, and what is told of the step.
#[derive(Drop)]
pub struct Stepped<'a, K: ProductKind, V> {
    pub stage: Stage<'a, K>,
    pub report: Report<V>,
}

// One step of a history: what was asked, and what was told of it.
#[derive(Drop)]
pub struct HistoryStep<V> {
    pub order: Order<V>,
    pub report: Report<V>,
}
