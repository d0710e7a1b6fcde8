// Release.
ghost use Rattle.std.specs.Prelude.{◌≡◌, true, false};
ghost use Rattle.lists.specs.Words.{member};
ghost use Rattle.refusals.specs.Causes.{answer};
ghost use Rattle.wire.specs.Choices.{nothing};
ghost use Rattle.agreement.specs.Rooms.{announcement_of, room_release, release_cause};
ghost use Rattle.rooms.specs.Calls.{Releasing};
ghost use Rattle.rooms.specs.Views.{room_of, works_in};

use crate::room::Room;
use crate::works::Works;
use crate::writing::{has_too_few, write_amounts};
use plan::SealedPlan;
use refusals::Refusal;
use stock::Book;
use wire::{Announcement, Wire};

impl Room {
    // Releases a marked, settled batch: announces it, writes its amounts to the book, and moves it to the end of the installed
    // list. What the wire has against the announcement comes last. A refused call changes nothing.
    pub fn release<W: Wire, B: Book>(
        &mut self,
        plan: &SealedPlan,
        wire: &mut W,
        book: &mut B,
        batch: u16,
    ) -> Result<(), Refusal>
        ensures cases { Releasing W.Wire.meaning B.Book.holds plan.now self.old self.new wire.old wire.new book.old book.new batch result }
        ensures choice { W.Wire.chooses wire.old nothing wire.new }
    {
        let works = Works { plan, wire };
        let announcement = self.next_release(&works, book, batch)?;
        let set = works.set_of(batch);
        wire.announce(self.number, announcement)?;
        write_amounts(book, set, &announcement.result.amounts);
        self.release_batch(batch);
        Ok(())
    }

    // The announcement of a batch that may be released, or why it may not.
    fn next_release<W: Wire, B: Book>(
        &self,
        works: &Works<W>,
        book: &B,
        batch: u16,
    ) -> Result<Announcement, Refusal>
        ensures { result ≡ answer (release_cause (works_in works.now) self.now.number (room_of self.now) (B.Book.holds book.now) batch) (announcement_of (room_of self.now) batch) }
    {
        if !self.has_heard(batch) {
            return Err(Refusal::UnknownBatch);
        }
        if works.master_of(batch) != self.number {
            return Err(Refusal::NotMaster);
        }
        if self.installed.has(batch) {
            return Err(Refusal::AlreadyInstalled);
        }
        let record = self.record_of(batch);
        let result = record.mark.ok_or(Refusal::NotMarked)?;
        if self.waiting.has(batch) {
            return Err(Refusal::StillWaiting);
        }
        if has_too_few(works, book, batch) {
            return Err(Refusal::TooFewSpare);
        }
        Ok(Announcement {
            batch,
            serializer: record.serializer,
            result,
        })
    }

    // Moves a settled batch to the end of the installed list, and takes its mark off.
    fn release_batch(&mut self, batch: u16)
        requires settled { member batch (room_of self.old).settled ≡ true }
        requires waiting { member batch (room_of self.old).waiting ≡ false }
        ensures after { room_of self.new ≡ room_release (room_of self.old) batch }
        ensures number { self.new.number ≡ self.old.number }
    {
        self.put_away(batch);
        self.records[batch as usize].mark = None;
    }
}
