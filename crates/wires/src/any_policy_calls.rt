ghost use Rattle.std.specs.Prelude.{◌≡◌};
ghost use Rattle.wires.specs.AnyPolicies.{any_numbers, any_tells, any_served, any_heard, any_wished, any_fresh};
ghost use Rattle.wires.specs.declared.kind.WireKind.TheVariants as kinds;
ghost use Rattle.wires.specs.declared.any_policy.AnyPolicy.TheVariants.{Sequenced, Turn, Directed};
ghost use Rattle.wires.specs.Laws.{left_orders, left_round_orders, wish_first_orders, own_first_orders};

use crate::any_policy::AnyPolicy;
use crate::directed::Directed;
use crate::kind::WireKind;
use crate::left::Left;
use crate::policy::Policy;
use crate::sequenced::Sequenced;
use crate::turn::Turn;

impl AnyPolicy {
    // The policy of a new wire of a kind.
    pub fn of_kind(kind: WireKind) -> AnyPolicy
        ensures { result ≡ any_fresh kind }
    {
        match kind {
            WireKind::Sequenced => AnyPolicy::Sequenced(Sequenced::start()),
            WireKind::Turn => AnyPolicy::Turn(Turn::start()),
            WireKind::Directed => AnyPolicy::Directed(Directed::start()),
        }
    }
}

impl Policy for AnyPolicy {
    ghost numbers = { any_numbers };

    ghost tells = { any_tells };

    ghost fresh = { any_fresh kinds.Sequenced };

    ghost served = { any_served };

    ghost heard = { any_heard };

    ghost wished = { any_wished };

    ghost numbering = { elim [
      | Sequenced p ↦ λ posts list. left_orders posts list
      | Turn p ↦ λ posts list. left_round_orders posts list p.turn
      | Directed p ↦ λ posts list. wish_first_orders p.wish posts list
    ] };

    ghost telling = { elim [
      | Sequenced p ↦ λ posts list room. own_first_orders posts list room
      | Turn p ↦ λ posts list room. left_round_orders posts list room
      | Directed p ↦ λ posts list room. wish_first_orders p.wish posts list
    ] };

    fn start() -> AnyPolicy {
        AnyPolicy::of_kind(WireKind::Sequenced)
    }

    fn choose_number(&self, left: &Left) -> Option<usize> {
        match self {
            AnyPolicy::Sequenced(p) => p.choose_number(left),
            AnyPolicy::Turn(p) => p.choose_number(left),
            AnyPolicy::Directed(p) => p.choose_number(left),
        }
    }

    fn choose_telling(&self, left: &Left, room: u8) -> Option<usize> {
        match self {
            AnyPolicy::Sequenced(p) => p.choose_telling(left, room),
            AnyPolicy::Turn(p) => p.choose_telling(left, room),
            AnyPolicy::Directed(p) => p.choose_telling(left, room),
        }
    }

    fn note_numbered(&mut self, room: u8) {
        match self {
            AnyPolicy::Sequenced(p) => p.note_numbered(room),
            AnyPolicy::Turn(p) => p.note_numbered(room),
            AnyPolicy::Directed(p) => p.note_numbered(room),
        }
    }

    fn note_told(&mut self) {
        match self {
            AnyPolicy::Sequenced(p) => p.note_told(),
            AnyPolicy::Turn(p) => p.note_told(),
            AnyPolicy::Directed(p) => p.note_told(),
        }
    }

    fn note_wish(&mut self, batch: u16) {
        match self {
            AnyPolicy::Sequenced(p) => p.note_wish(batch),
            AnyPolicy::Turn(p) => p.note_wish(batch),
            AnyPolicy::Directed(p) => p.note_wish(batch),
        }
    }
}
