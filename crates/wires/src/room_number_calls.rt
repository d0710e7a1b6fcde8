ghost use Rattle.wires.specs.RoomNumbers.{RoomRead};

use crate::limits::ROOMS;
use crate::room_number::RoomNumber;
use refusals::Refusal;

impl TryFrom<u8> for RoomNumber {
    type Error = Refusal;

    ghost try_from_gives = { RoomRead };

    fn try_from(number: u8) -> Result<RoomNumber, Refusal> {
        if number >= ROOMS {
            return Err(Refusal::OutOfRange);
        }
        Ok(RoomNumber { number })
    }
}
