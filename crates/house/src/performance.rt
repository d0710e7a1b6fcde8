// What performing a list of calls gives.
use crate::call::{Answer, Call};
use crate::house::House;
use crate::unopened::WhyUnopened;
use plan::SealedPlan;
use stock::Book;
use wire::Wire;

// A house after a list of calls, and their answers in order.
#[derive(Drop)]
pub struct Performance<W, B> {
    pub house: House<W, B>,
    pub answers: Vec<Answer>,
}

// Why no call was performed.
#[derive(Clone, Copy, PartialEq, Eq, Debug)]
pub enum WhyUnperformed {
    // there is not enough memory
    NoMemory,
    // no house is opened
    Unopened(WhyUnopened),
}

// What was to be performed, as it was handed over, and why it was not.
#[derive(Drop)]
pub struct Unperformed<B> {
    pub plan: SealedPlan,
    pub books: Vec<B>,
    pub calls: Vec<Call>,
    pub why: WhyUnperformed,
}
