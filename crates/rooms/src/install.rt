// Install.
ghost use Rattle.std.specs.Prelude.{◌≡◌};
ghost use Rattle.plan.specs.Plans.{plan_of};
ghost use Rattle.refusals.specs.Causes.{answer};
ghost use Rattle.wire.specs.Calls.{next_announcement};
ghost use Rattle.wire.specs.Choices.{nothing};
ghost use Rattle.agreement.specs.Rooms.{turn_come, install_cause};
ghost use Rattle.rooms.specs.Calls.{Installing};
ghost use Rattle.rooms.specs.Views.{room_of, works, works_in};

use crate::room::Room;
use crate::works::Works;
use crate::writing::{has_too_few, write_amounts};
use plan::SealedPlan;
use refusals::Refusal;
use stock::Book;
use wire::{Announcement, Wire};

impl Room {
    // Installs a sender's next announcement: takes it off the wire, writes its amounts to the book, and moves the batch to the
    // end of the installed list. Answers the batch. A refused call changes nothing. Plan, wire and book stand
    // apart in a room's calls, since each call lends another of them to be changed.
    pub fn install<W: Wire, B: Book>(
        &mut self,
        plan: &SealedPlan,
        wire: &mut W,
        book: &mut B,
        sender: u8,
    ) -> Result<u16, Refusal>
        ensures cases { Installing W.Wire.meaning B.Book.holds plan.now self.old self.new wire.old wire.new book.old book.new sender result }
        ensures choice { W.Wire.chooses wire.old nothing wire.new }
    {
        let announcement = self.next_install(plan, wire, book, sender)?;
        let batch = announcement.batch;
        let set = Works { plan, wire }.set_of(batch);
        wire.take_announcement(self.number, sender).unwrap();
        write_amounts(book, set, &announcement.result.amounts);
        self.put_away(batch);
        Ok(batch)
    }

    // The announcement that an install takes, or why it is refused.
    fn next_install<W: Wire, B: Book>(
        &self,
        plan: &SealedPlan,
        wire: &W,
        book: &B,
        sender: u8,
    ) -> Result<Announcement, Refusal>
        ensures { result ≡ answer (install_cause (plan_of plan.now).rooms (works plan.now (W.Wire.meaning wire.now)) (W.Wire.meaning wire.now) self.now.number (room_of self.now) (B.Book.holds book.now) sender) (next_announcement (W.Wire.meaning wire.now) self.now.number sender) }
    {
        if sender >= plan.rooms() || sender == self.number {
            return Err(Refusal::OutOfRange);
        }
        let announcement = wire.next_announcement(self.number, sender)?;
        let works = Works { plan, wire };
        if !self.has_turn_come(&works, sender, announcement) {
            return Err(Refusal::NotItsTurn);
        }
        if has_too_few(&works, book, announcement.batch) {
            return Err(Refusal::TooFewSpare);
        }
        Ok(announcement)
    }

    // Whether the turn of an announcement has come: the sender is the batch's master, the batch is heard and not installed, and
    // the serializer is settled and first in the line of each base of the batch, leaving out the batch where it is another.
    fn has_turn_come<W: Wire>(
        &self,
        works: &Works<W>,
        sender: u8,
        announcement: Announcement,
    ) -> bool
        ensures { result ≡ turn_come (works_in works.now) (room_of self.now) sender announcement }
    {
        let batch = announcement.batch;
        let serializer = announcement.serializer;
        works.master_of(batch) == sender
            && self.has_heard(batch)
            && !self.installed.has(batch)
            && self.settled.has(serializer)
            && self.leads_lines(works, batch, serializer)
    }
}
