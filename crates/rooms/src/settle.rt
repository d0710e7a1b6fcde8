// Settle.
ghost use Rattle.std.specs.Prelude.{◌≡◌};
ghost use Rattle.wire.specs.Choices.{nothing};
ghost use Rattle.agreement.specs.Rooms.{room_settle, ahead_count, thrown_count};
ghost use Rattle.rooms.specs.Calls.{Settling};
ghost use Rattle.rooms.specs.Views.{room_of, works_in};

use crate::next::Next;
use crate::room::Room;
use crate::works::Works;
use plan::SealedPlan;
use refusals::Refusal;
use wire::Wire;

impl Room {
    // Settles the next definitive batch, and before it all batches that go ahead of it. Answers that batch, how many went
    // ahead, and how many marks were thrown: a rule of the project has a settle answer these three numbers. A refused call
    // changes nothing.
    pub fn settle<W: Wire>(
        &mut self,
        plan: &SealedPlan,
        wire: &mut W,
    ) -> Result<(u16, u16, u16), Refusal>
        ensures cases { Settling W.Wire.meaning plan.now self.old self.new wire.old wire.new result }
        ensures choice { W.Wire.chooses wire.old nothing wire.new }
    {
        let batch = wire.tell_definitively(self.number)?;
        let (ahead, thrown) = self.settle_batch(&Works { plan, wire }, batch);
        Ok((batch, ahead, thrown))
    }

    // Settles a batch, unless it no longer waits. Answers how many went ahead of it, and how many marks were thrown.
    fn settle_batch<W: Wire>(&mut self, works: &Works<W>, batch: u16) -> (u16, u16)
        ensures ahead { result.0 ≡ ahead_count (works_in works.now) self.old.number (room_of self.old) batch }
        ensures thrown { result.1 ≡ thrown_count (works_in works.now) self.old.number (room_of self.old) batch }
        ensures after { room_of self.new ≡ room_settle (works_in works.now) self.old.number (room_of self.old) batch }
        ensures number { self.new.number ≡ self.old.number }
    {
        if !self.waiting.has(batch) {
            return (0, 0);
        }
        let next = Next {
            works,
            room: self.number,
            batch,
        };
        let before = self.settled.len();
        let ahead = next.move_on(&mut self.waiting, &mut self.settled);
        next.name_serializer(&mut self.records, &self.settled.as_slice()[before..]);
        let thrown = next.throw_marks(&mut self.records, self.waiting.as_slice());
        (ahead, thrown)
    }
}
