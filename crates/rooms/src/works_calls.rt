// The set of a batch, and its master. A number that is not posted counts as a batch of set 1, and a set that the plan lacks as
// room 0's, so that no definition needs an exception.
ghost use Rattle.std.specs.Prelude.{◌≡◌, true};
ghost use Rattle.sets.specs.Sets.{sized};
ghost use Rattle.order.specs.Works.{Works as PostedWorks, set_of};
ghost use Rattle.rooms.specs.Views.{works_in};

use crate::works::Works;
use batches::SealedBatch;
use wire::Wire;

impl<W: Wire> Works<'_, W> {
    // The set of a batch, which has one to eight bases.
    pub(crate) fn set_of(&self, batch: u16) -> u32
        ensures value { result ≡ set_of (works_in self.now) batch }
        ensures sized { sized result ≡ true }
    {
        self.wire.batch(batch).map_or(1, SealedBatch::set)
    }

    // The master room of a batch.
    pub(crate) fn master_of(&self, batch: u16) -> u8
        ensures { result ≡ (works_in self.now).master batch }
    {
        self.plan.master(self.set_of(batch)).unwrap_or(0)
    }
}
