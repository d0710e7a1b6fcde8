ghost use Rattle.wires.specs.Orders.{left, own_first};
ghost use Rattle.wires.specs.Laws.{left_orders, own_first_orders};

use crate::left::Left;
use crate::policy::Policy;

// Numbers in the order of posting; tells a room its own posts first, then the others, oldest first. Takes no wishes.
#[derive(Clone, Copy)]
pub struct Sequenced;

impl Policy for Sequenced {
    ghost numbers = { λ p posts list. left posts list };

    ghost tells = { λ p posts list room. own_first posts list room };

    ghost fresh = { record {} };

    ghost served = { λ p room. p };

    ghost heard = { λ p. p };

    ghost wished = { λ p batch. p };

    ghost numbering = { λ p posts list. left_orders posts list };

    ghost telling = { λ p posts list room. own_first_orders posts list room };

    fn start() -> Sequenced {
        Sequenced
    }

    fn choose_number(&self, left: &Left) -> Option<usize> {
        left.oldest()
    }

    fn choose_telling(&self, left: &Left, room: u8) -> Option<usize> {
        // A `match`: the closure of an `or_else` captures `left`, and would need a clause of its own, which is no plainer.
        match left.oldest_of(room) {
            Some(own) => Some(own),
            None => left.oldest(),
        }
    }

    fn note_numbered(&mut self, room: u8) {}

    fn note_told(&mut self) {}

    fn note_wish(&mut self, batch: u16) {}
}
