ghost use Rattle.std.specs.Prelude.{◌≤◌, vec_capacity};

use crate::batch_list::BatchList;
use crate::limits::ROOMS;
use wire::announcement::Announcement;

// A ledger's page for one room: its tentative list, its announcements, and how many definitive entries and how many
// announcements of each sender it has taken.
#[derive(Drop)]
pub struct Page {
    pub(crate) told: BatchList,
    pub(crate) announced: Vec<Announcement>,
    pub(crate) taken: usize,
    pub(crate) received: [usize; ROOMS as usize],
    ghost place: { 256 ≤ vec_capacity announced },
}
