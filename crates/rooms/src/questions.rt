// What a room tells of itself.
ghost use Rattle.std.specs.Prelude.{◌≡◌};
ghost use Rattle.agreement.specs.Rooms.{heard_here};
ghost use Rattle.rooms.specs.Views.{room_of, record_at};

use crate::record::{BLANK, Record};
use crate::room::Room;

impl Room {
    // The number of the room.
    pub fn number(&self) -> u8
        ensures value { result ≡ self.now.number }
    {
        self.number
    }

    // The batches that wait, in the order in which they were heard.
    pub fn waiting(&self) -> &[u16]
        ensures value { result.now ≡ (room_of self.now).waiting }
    {
        self.waiting.as_slice()
    }

    // The settled batches, in their order.
    pub fn settled(&self) -> &[u16]
        ensures value { result.now ≡ (room_of self.now).settled }
    {
        self.settled.as_slice()
    }

    // The installed batches, in their order.
    pub fn installed(&self) -> &[u16]
        ensures value { result.now ≡ (room_of self.now).installed }
    {
        self.installed.as_slice()
    }

    // Whether the room has heard a batch.
    pub(crate) fn has_heard(&self, batch: u16) -> bool
        ensures { result ≡ heard_here (room_of self.now) batch }
    {
        self.waiting.has(batch) || self.settled.has(batch) || self.installed.has(batch)
    }

    // The record of a batch; a blank one for a number past the table.
    pub(crate) fn record_of(&self, batch: u16) -> Record
        ensures { result ≡ record_at self.now batch }
    {
        self.records.get(batch as usize).copied().unwrap_or(BLANK)
    }
}
