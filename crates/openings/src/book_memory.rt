// The memory that one room's book lies over.
use crate::buffer::Buffer;
use stock::Entry;

// A buffer for a table or for a journal.
#[derive(Drop)]
pub enum BookMemory {
    Table(Buffer<u32, 32>),
    Journal(Buffer<Entry, 1024>),
}
