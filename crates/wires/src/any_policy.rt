use crate::directed::Directed;
use crate::sequenced::Sequenced;
use crate::turn::Turn;

// One of the three policies. An enum that hands each call on, since the gate refuses a function that hands out a `dyn`.
#[derive(Clone, Copy)]
pub enum AnyPolicy {
    Sequenced(Sequenced),
    Turn(Turn),
    Directed(Directed),
}
