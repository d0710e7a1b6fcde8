// The memory of a room, taken before the room is opened.
ghost use Rattle.std.specs.Prelude.{◌≡◌, [], replicate};
ghost use Rattle.rooms.specs.Lists.{numbers_of};
ghost use Rattle.rooms.specs.Records.{blank};

use crate::batch_list::BatchList;
use crate::limits::BATCHES;
use crate::record::{BLANK, Record};
use std::alloc::{AllocError, Global};

// All the memory that a room will ever need: three empty lists of batches, and a table of 256 blank records.
#[derive(Drop)]
pub struct RoomMemory {
    pub(crate) waiting: BatchList,
    pub(crate) settled: BatchList,
    pub(crate) installed: BatchList,
    pub(crate) records: Vec<Record>,
    ghost waiting_empty: { numbers_of waiting ≡ [] },
    ghost settled_empty: { numbers_of settled ≡ [] },
    ghost installed_empty: { numbers_of installed ≡ [] },
    ghost records_blank: { records.items ≡ replicate 256 blank },
}

impl RoomMemory {
    // Takes the memory, or tells that there is not enough. What it has then is what the type says.
    pub fn reserve(heap: Global) -> Result<RoomMemory, AllocError> {
        Ok(RoomMemory {
            waiting: BatchList::open(heap)?,
            settled: BatchList::open(heap)?,
            installed: BatchList::open(heap)?,
            records: Vec::from_slice(heap, &[BLANK; BATCHES])?,
        })
    }
}
