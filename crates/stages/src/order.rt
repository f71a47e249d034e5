// What can be asked of a book.
ghost use Rattle.std.specs.Prelude.{◌≡◌};
ghost use Rattle.stages.specs.Stages.{weighing_of};
ghost use Rattle.weighing.specs.Fitting.{brought};

use cards::Card;
use parts::PartSet;

// What the reading of a worth brings: the works weights, the fails weights, and a card. It owns them, because a history
// keeps what was asked.
#[derive(Drop)]
pub struct Weighing<V> {
    pub works: Vec<V>,
    pub fails: Vec<V>,
    pub card: Card,
}

impl<V> Weighing<V> {
    pub(crate) fn lend(&self) -> weighing::Weighing<'_, V>
        ensures { brought result ≡ weighing_of self.now }
    {
        weighing::Weighing {
            works: self.works.as_slice(),
            fails: self.fails.as_slice(),
            card: &self.card,
        }
    }
}

// What is read of a sealed book: its worth, the worth of a product, how many states contain an entered path; the must set,
// the group count and a group of a product.
#[derive(Drop)]
pub enum Reading<V> {
    Worth(Weighing<V>),
    ProductWorth(usize, Weighing<V>),
    Covered,
    Must(usize),
    GroupCount(usize),
    Group(usize, usize),
}

// What is asked of a book. An entry has so many places of the working space, or all where there are fewer.
#[derive(Drop)]
pub enum Order<V> {
    Enter(PartSet, usize),
    Counts,
    Seal,
    Reopen,
    Read(Reading<V>),
}
