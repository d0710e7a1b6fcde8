// A house that is not opened.
use crate::memory::HouseMemory;
use plan::SealedPlan;

// Why a house is not opened.
#[derive(Clone, Copy, PartialEq, Eq, Debug)]
pub enum WhyUnopened {
    // there is not one book for each room of the plan
    BookCount,
    // some book does not hold the amounts of the first
    UnequalBooks,
    // a batch is posted on the wire already
    UsedWire,
}

// What was to be a house, as it was handed over, and why it is none.
#[derive(Drop)]
pub struct Unopened<W, B> {
    pub plan: SealedPlan,
    pub wire: W,
    pub books: Vec<B>,
    pub memory: HouseMemory,
    pub why: WhyUnopened,
}
