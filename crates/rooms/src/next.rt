// A settle, as its parts see it.
use crate::works::Works;
use wire::Wire;

// The batch that a room settles next, and what the room reads of its house.
#[derive(Drop)]
pub(crate) struct Next<'a, W: Wire> {
    pub(crate) works: &'a Works<'a, W>,
    pub(crate) room: u8,
    pub(crate) batch: u16,
}
