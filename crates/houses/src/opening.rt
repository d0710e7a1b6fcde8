// Opening a house.
ghost use Rattle.houses.specs.Openings.{Opens};

use crate::memory::OpeningMemory;
use crate::open_house::OpenHouse;
use house::House;
use openings::Opening;
use plan::SealedPlan;
use refusals::Refusal;
use wires::WireKind;

// A house that could not be opened: its plan, its memory and its opening amounts, as they were, and why.
#[derive(Drop)]
pub struct NotOpened {
    pub plan: SealedPlan,
    pub memory: OpeningMemory,
    pub opening: Opening,
    pub refusal: Refusal,
}

impl OpenHouse {
    // Opens a house of a sealed plan over a new wire of a kind, with new books that hold the opening amounts. A plan for more than
    // four rooms is refused.
    pub fn open(
        memory: OpeningMemory,
        plan: SealedPlan,
        kind: WireKind,
        opening: Opening,
    ) -> Result<OpenHouse, NotOpened>
        ensures { Opens memory plan kind opening result }
    {
        if plan.rooms() > 4 {
            return Err(NotOpened {
                plan,
                memory,
                opening,
                refusal: Refusal::OutOfRange,
            });
        }
        let OpeningMemory { wire, books, rooms } = memory;
        let books = books.open_books(plan.rooms(), &opening);
        let house = House::open(plan, wire.with_kind(kind), books, rooms).unwrap();
        Ok(OpenHouse { house, opening })
    }
}
