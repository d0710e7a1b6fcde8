ghost use Rattle.std.specs.Prelude.{◌+◌, ◌%◌};
ghost use Rattle.wires.specs.Orders.{left_round};
ghost use Rattle.wires.specs.Laws.{left_round_orders};

use crate::left::Left;
use crate::limits::ROOMS;
use crate::policy::Policy;

// Goes round the rooms from the one whose turn it is to the first with an unnumbered post, and numbers its oldest; then it is
// the turn of the room after that. Tells a room its own oldest untold post, else that of the next room round with one.
// Takes no wishes.
#[derive(Clone, Copy)]
pub struct Turn {
    turn: u8,
}

impl Policy for Turn {
    ghost numbers = { λ p posts list. left_round posts list p.turn };

    ghost tells = { λ p posts list room. left_round posts list room };

    ghost fresh = { record { turn = 0 } };

    ghost served = { λ p room. record { turn = (room + 1) % 8 } };

    ghost heard = { λ p. p };

    ghost wished = { λ p batch. p };

    ghost numbering = { λ p posts list. left_round_orders posts list p.turn };

    ghost telling = { λ p posts list room. left_round_orders posts list room };

    fn start() -> Turn {
        Turn { turn: 0 }
    }

    fn choose_number(&self, left: &Left) -> Option<usize> {
        left.oldest_round(self.turn)
    }

    fn choose_telling(&self, left: &Left, room: u8) -> Option<usize> {
        left.oldest_round(room)
    }

    fn note_numbered(&mut self, room: u8) {
        self.turn = room.wrapping_add(1) % ROOMS;
    }

    fn note_told(&mut self) {}

    fn note_wish(&mut self, batch: u16) {}
}
