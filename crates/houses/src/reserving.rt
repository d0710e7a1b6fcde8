// Taking the memory of a house, before it is opened.
use crate::memory::OpeningMemory;
use house::HouseMemory;
use openings::BooksMemory;
use std::alloc::{AllocError, Global};
use wire::Wire;
use wires::AnyWire;

impl OpeningMemory {
    // Takes the memory, or tells that there is not enough. What it has then is what the type says.
    pub fn reserve(heap: Global) -> Result<OpeningMemory, AllocError> {
        Ok(OpeningMemory {
            wire: AnyWire::open(heap)?,
            books: BooksMemory::take(heap)?,
            rooms: HouseMemory::reserve(heap)?,
        })
    }
}
