// Opening a room.
ghost use Rattle.std.specs.Prelude.{◌≡◌, ◌<◌};
ghost use Rattle.agreement.specs.Rooms.{new_room};
ghost use Rattle.rooms.specs.Openings.{Opening};
ghost use Rattle.rooms.specs.Views.{room_of};

use crate::memory::RoomMemory;
use crate::room::Room;
use plan::SealedPlan;
use refusals::Refusal;

// A room that could not be opened: its memory, as it was, and why.
#[derive(Drop)]
pub struct Unopened {
    pub memory: RoomMemory,
    pub refusal: Refusal,
}

impl Room {
    // Opens a room of a sealed plan: a new one, with nothing heard. A number that is no room of the plan is refused.
    pub fn open(plan: &SealedPlan, number: u8, memory: RoomMemory) -> Result<Room, Unopened>
        ensures cases { Opening plan.now number memory result }
    {
        if number >= plan.rooms() {
            return Err(Unopened {
                memory,
                refusal: Refusal::OutOfRange,
            });
        }
        let RoomMemory {
            waiting,
            settled,
            installed,
            records,
        } = memory;
        Ok(Room {
            number,
            waiting,
            settled,
            installed,
            records,
        })
    }
}
