ghost use Rattle.std.specs.Prelude.{◌≡◌, ℕ, ◌+◌, ◌<◌, [], ◌∷◌, ◌++◌, length, IfOk};
ghost use Rattle.wires.specs.Parts.{kept_of};
ghost use Rattle.wires.specs.Kept.{blank, also_told, also_announced, also_taken, also_received};

use crate::batch_list::BatchList;
use crate::limits::{BATCHES, ROOMS};
use crate::page::Page;
use crate::room_number::RoomNumber;
use std::alloc::{AllocError, Global};
use wire::announcement::Announcement;

impl Page {
    // A blank page, with the memory for 256 batches told and 256 announcements.
    pub(crate) fn open(heap: Global) -> Result<Page, AllocError>
        ensures { IfOk result (λ p. kept_of p ≡ blank) }
    {
        let told = BatchList::open(heap)?;
        let announced = Vec::with_capacity(heap, BATCHES)?;
        Ok(Page {
            told,
            announced,
            taken: 0,
            received: [0; ROOMS as usize],
        })
    }

    // Puts a batch at the end of the tentative list.
    pub(crate) fn tell(&mut self, batch: u16)
        requires small { batch < 256 }
        requires few { length (kept_of self.old).told < 256 }
        ensures { kept_of self.new ≡ also_told (kept_of self.old) batch }
    {
        self.told.append(batch);
    }

    // Puts an announcement at the end of the room's.
    pub(crate) fn announce(&mut self, announcement: Announcement)
        requires { length (kept_of self.old).announced < 256 }
        ensures { kept_of self.new ≡ also_announced (kept_of self.old) announcement }
    {
        self.announced.push_reserved(announcement);
    }

    // Counts one definitive entry more as taken.
    pub(crate) fn take_entry(&mut self)
        requires { (kept_of self.old).taken < 256 }
        ensures { kept_of self.new ≡ also_taken (kept_of self.old) }
    {
        self.taken += 1;
    }

    // Counts one announcement of a sender more as taken.
    pub(crate) fn receive(&mut self, sender: RoomNumber)
        requires { (kept_of self.old).received sender.number < 256 }
        ensures { kept_of self.new ≡ also_received (kept_of self.old) sender.number }
    {
        self.received[sender.number as usize] += 1;
    }
}
