// What is left of a house that is closed.
use plan::SealedPlan;

// The plan, the wire and the books of a house that is closed.
#[derive(Drop)]
pub struct Closed<W, B> {
    pub plan: SealedPlan,
    pub wire: W,
    pub books: Vec<B>,
}
