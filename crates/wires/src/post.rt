use crate::room_number::RoomNumber;
use batches::sealed::SealedBatch;

// A posted batch, the room that posted it, and whether some room has announced it.
#[derive(Drop)]
pub struct Post {
    pub(crate) room: RoomNumber,
    pub(crate) batch: SealedBatch,
    pub(crate) announced: bool,
}
