// The room.
ghost use Rattle.std.specs.Prelude.{◌≡◌, ◌+◌, ◌<◌, ◌≤◌, length, vec_len};
ghost use Rattle.rooms.specs.Lists.{numbers_of};

use crate::batch_list::BatchList;
use crate::record::Record;

// A room: its three lists of batches, and the record of each of 256 batches. The lists together hold at most 256 batches.
// A rule of the project: the records are a table inside the room, in memory that is taken at opening.
#[derive(Drop)]
pub struct Room {
    pub(crate) number: u8,
    pub(crate) waiting: BatchList,
    pub(crate) settled: BatchList,
    pub(crate) installed: BatchList,
    pub(crate) records: Vec<Record>,
    ghost eight: { number < 8 },
    ghost few: { length (numbers_of waiting) + length (numbers_of settled) + length (numbers_of installed) ≤ 256 },
    ghost table: { vec_len records ≡ 256 },
}
