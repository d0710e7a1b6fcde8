// Pick.
ghost use Rattle.agreement.specs.Rooms.{Picks};
ghost use Rattle.rooms.specs.Views.{room_of, works};

use crate::room::Room;
use crate::works::Works;
use plan::SealedPlan;
use wire::Wire;

impl Room {
    // Some batch that run would take; none exactly where run would take none.
    pub fn pick<W: Wire>(&self, plan: &SealedPlan, wire: &W) -> Option<u16>
        ensures value { Picks (works plan.now (W.Wire.meaning wire.now)) self.now.number (room_of self.now) result }
    {
        let works = Works { plan, wire };
        self.settled()
            .iter()
            .chain(self.waiting())
            .copied()
            .find(|batch| self.check_run(&works, *batch).is_ok())
    }
}
