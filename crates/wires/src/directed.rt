ghost use Rattle.std.specs.Prelude.{◌≡◌, Some, None};
ghost use Rattle.wires.specs.Orders.{head, wish_first};
ghost use Rattle.wires.specs.Laws.{wish_first_orders};

use crate::left::Left;
use crate::policy::Policy;

// Takes a wish; a later wish replaces it. The next batch that is numbered or told is the wish where it is allowed, else the
// lowest batch allowed, and uses the wish up.
#[derive(Clone, Copy)]
pub struct Directed {
    wish: Option<u16>,
}

impl Directed {
    // The wish where it is left, else the oldest that is.
    fn choose(&self, left: &Left) -> Option<usize>
        ensures { result ≡ head (wish_first self.now.wish left.now.posts left.now.list) }
    {
        // A `match` with a guard: the closures of a `filter` and an `or_else` would need clauses of their own, no plainer.
        match self.wish {
            Some(wish) if left.has(wish as usize) => Some(wish as usize),
            _ => left.oldest(),
        }
    }
}

impl Policy for Directed {
    ghost numbers = { λ p posts list. wish_first p.wish posts list };

    ghost tells = { λ p posts list room. wish_first p.wish posts list };

    ghost fresh = { record { wish = None } };

    ghost served = { λ p room. record { wish = None } };

    ghost heard = { λ p. record { wish = None } };

    ghost wished = { λ p batch. record { wish = Some batch } };

    ghost numbering = { λ p posts list. wish_first_orders p.wish posts list };

    ghost telling = { λ p posts list room. wish_first_orders p.wish posts list };

    fn start() -> Directed {
        Directed { wish: None }
    }

    fn choose_number(&self, left: &Left) -> Option<usize> {
        self.choose(left)
    }

    fn choose_telling(&self, left: &Left, room: u8) -> Option<usize> {
        self.choose(left)
    }

    fn note_numbered(&mut self, room: u8) {
        self.wish = None;
    }

    fn note_told(&mut self) {
        self.wish = None;
    }

    fn note_wish(&mut self, batch: u16) {
        self.wish = Some(batch);
    }
}
