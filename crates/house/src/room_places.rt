// Where a house keeps what is a room's.
ghost use Rattle.std.specs.Prelude.{◌≡◌, ◌<◌, ◌≤◌, MatchResult};
ghost use Rattle.refusals.specs.declared.refusal.Refusal.TheVariants.{OutOfRange};
ghost use Rattle.plan.specs.Plans.{plan_of};

use crate::house::House;
use refusals::Refusal;

impl<W, B> House<W, B> {
    // The place of a room and of its book; refused where the plan has no such room.
    pub(crate) fn place_of(&self, room: u8) -> Result<usize, Refusal>
        ensures cases { MatchResult result (λ place. (place ≡ room) × (room < (plan_of self.now.plan).rooms)) (λ e. (e ≡ OutOfRange) × ((plan_of self.now.plan).rooms ≤ room)) }
    {
        if room >= self.plan.rooms() {
            return Err(Refusal::OutOfRange);
        }
        Ok(room as usize)
    }
}
