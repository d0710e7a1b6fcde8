// The house.
ghost use Rattle.std.specs.Prelude.{◌≡◌, map, vec_len};
ghost use Rattle.lists.specs.Words.{rising};
ghost use Rattle.plan.specs.Plans.{plan_of};
ghost use Rattle.house.specs.Numbers.{room_number};

use plan::SealedPlan;
use rooms::Room;
use stock::Book;
use wire::Wire;

// A house: a sealed plan, a wire, and for each room of the plan its lists and its book. The rooms stand by their numbers.
// Rooms and books are two lists: the books come in and go out as one, and to pair them would ask for memory.
#[derive(Drop)]
pub struct House<W, B> {
    pub(crate) plan: SealedPlan,
    pub(crate) wire: W,
    pub(crate) rooms: Vec<Room>,
    pub(crate) books: Vec<B>,
    ghost roomed: { vec_len rooms ≡ (plan_of plan).rooms },
    ghost numbered: { map room_number rooms.items ≡ rising 0 (plan_of plan).rooms },
    ghost booked: { vec_len books ≡ (plan_of plan).rooms },
}
