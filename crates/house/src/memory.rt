// The memory of a house, taken before the house is opened.
ghost use Rattle.std.specs.Prelude.{◌≡◌, ◌≤◌, [], vec_len, vec_capacity};

use rooms::{Room, RoomMemory};
use std::alloc::{AllocError, Global};

// All the memory that the rooms of a house will ever need: that of eight rooms, and space to keep them in.
// The eight stand in a `Vec`, for each may want for memory: an array made by a closure would need a clause on it, no plainer.
#[derive(Drop)]
pub struct HouseMemory {
    pub(crate) rooms: Vec<Room>,
    pub(crate) memories: Vec<RoomMemory>,
    ghost empty: { rooms.items ≡ [] },
    ghost space: { 8 ≤ vec_capacity rooms },
    ghost eight: { vec_len memories ≡ 8 },
}

impl HouseMemory {
    // Takes the memory, or tells that there is not enough. What it has then is what the type says.
    pub fn reserve(heap: Global) -> Result<HouseMemory, AllocError> {
        let rooms = Vec::with_capacity(heap, 8)?;
        let mut memories = Vec::with_capacity(heap, 8)?;
        for _ in 0..8u8 {
            memories.push_reserved(RoomMemory::reserve(heap)?);
        }
        Ok(HouseMemory { rooms, memories })
    }
}
