// Hear.
ghost use Rattle.wire.specs.Choices.{telling};
ghost use Rattle.rooms.specs.Calls.{Hearing};

use crate::limits::BATCHES;
use crate::room::Room;
use refusals::Refusal;
use wire::Wire;

impl Room {
    // Hears the next tentative batch: it goes to the end of the waiting list, and is the answer. A room that has heard 256
    // batches, as many as are ever posted, does not ask the wire.
    pub fn hear<W: Wire>(&mut self, wire: &mut W) -> Result<u16, Refusal>
        ensures cases { Hearing W.Wire.meaning self.old self.new wire.old wire.new result }
        ensures choice { W.Wire.chooses wire.old (telling self.old.number result) wire.new }
    {
        if self.waiting.len() + self.settled.len() + self.installed.len() >= BATCHES {
            return Err(Refusal::NothingWaits);
        }
        let batch = wire.tell_tentatively(self.number)?;
        self.waiting.append(batch);
        Ok(batch)
    }
}
