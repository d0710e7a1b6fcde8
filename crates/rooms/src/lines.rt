// The lines of a room: the line of a base is the settled, then the waiting batches that have it.
ghost use Rattle.std.specs.Prelude.{◌≡◌};
ghost use Rattle.agreement.specs.Rooms.{first_in_lines, first_before};
ghost use Rattle.rooms.specs.Views.{room_of, works_in};

use crate::room::Room;
use crate::works::Works;
use sets::{lies_within, shares_base};
use wire::Wire;

impl Room {
    // Whether the leader is first in the line of each base of a batch, leaving that one out where it is another: the leader
    // has all its bases, and comes before every other batch that has one of them.
    pub(crate) fn leads_lines<W: Wire>(&self, works: &Works<W>, batch: u16, leader: u16) -> bool
        ensures { result ≡ first_before (works_in works.now) (room_of self.now) batch leader }
    {
        let set = works.set_of(batch);
        let decides = |other: &u16| {
            *other == leader || *other != batch && shares_base(works.set_of(*other), set)
        };
        let mut lines = self.settled().iter().chain(self.waiting()).copied();
        lies_within(set, works.set_of(leader)) && lines.find(decides) == Some(leader)
    }

    // Whether a batch is first in all its lines.
    pub(crate) fn is_first<W: Wire>(&self, works: &Works<W>, batch: u16) -> bool
        ensures { result ≡ first_in_lines (works_in works.now) (room_of self.now) batch }
    {
        self.leads_lines(works, batch, batch)
    }
}
