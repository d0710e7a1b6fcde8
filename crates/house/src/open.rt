// Opening a house.
ghost use Rattle.std.specs.Prelude.{◌≡◌, map, vec_len};
ghost use Rattle.std.specs.Result.{result_err};
ghost use Rattle.lists.specs.Words.{rising};
ghost use Rattle.plan.specs.Plans.{plan_of};
ghost use Rattle.rooms.specs.Views.{room_of};
ghost use Rattle.house.specs.Numbers.{room_number};
ghost use Rattle.house.specs.Openings.{open_reason, AllNew, Opening};

use crate::books::are_equal;
use crate::house::House;
use crate::memory::HouseMemory;
use crate::unopened::{Unopened, WhyUnopened};
use plan::SealedPlan;
use rooms::Room;
use stock::Book;
use wire::Wire;

impl<W: Wire, B: Book> House<W, B> {
    // Opens a house of a sealed plan, over a wire on which nothing is posted and one book for each room, all with equal amounts.
    // What cannot be opened is handed back as it was.
    pub fn open(
        plan: SealedPlan,
        wire: W,
        books: Vec<B>,
        memory: HouseMemory,
    ) -> Result<House<W, B>, Unopened<W, B>>
        ensures cases { Opening W.Wire.meaning B.Book.holds plan wire books memory result }
    {
        if let Err(why) = check_opening(&plan, &wire, books.as_slice()) {
            return Err(Unopened {
                plan,
                wire,
                books,
                memory,
                why,
            });
        }
        let rooms = open_rooms(&plan, memory);
        Ok(House {
            plan,
            wire,
            rooms,
            books,
        })
    }
}

// Refuses an opening that has a reason against it.
fn check_opening<W: Wire, B: Book>(
    plan: &SealedPlan,
    wire: &W,
    books: &[B],
) -> Result<(), WhyUnopened>
    ensures refused { result_err result ≡ open_reason (plan_of plan.now) (W.Wire.meaning wire.now) (map B.Book.holds books.now) }
{
    if books.len() != plan.rooms() as usize {
        return Err(WhyUnopened::BookCount);
    }
    if !are_equal(books) {
        return Err(WhyUnopened::UnequalBooks);
    }
    if wire.posted() != 0 {
        return Err(WhyUnopened::UsedWire);
    }
    Ok(())
}

// Opens the rooms of a plan, by their numbers.
fn open_rooms(plan: &SealedPlan, memory: HouseMemory) -> Vec<Room>
    ensures len { vec_len result ≡ (plan_of plan.now).rooms }
    ensures numbered { map room_number result.items ≡ rising 0 (plan_of plan.now).rooms }
    ensures new { AllNew (map room_of result.items) }
{
    let HouseMemory {
        mut rooms,
        mut memories,
    } = memory;
    for number in 0..plan.rooms() {
        let memory = memories.pop().unwrap();
        let room = Room::open(plan, number, memory).unwrap();
        rooms.push_reserved(room);
    }
    rooms
}
