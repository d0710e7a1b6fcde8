// The interface of a wire. Which batch numbering and tentative telling choose is left to each wire's own rule.
ghost use Rattle.std.specs.Prelude.{◌≡◌, length, IfOk, OnErr};
ghost use Rattle.std.specs.Borrow.{Bor};
ghost use Rattle.std.specs.Option.{option_map};
ghost use Rattle.batches.specs.Sealed.{batch_of};
ghost use Rattle.batches.specs.declared.sealed.SealedBatch.{SealedBatch as Sealed};
ghost use Rattle.wire.specs.Wire.{Wire as WireState, new_wire};
ghost use Rattle.wire.specs.Calls.{Sound};
ghost use Rattle.wire.specs.Choices.{Choice, numbering, telling, wished, nothing};
ghost use Rattle.wire.specs.Promises.{Posting, Numbering, Hearing, Telling, Announcing, Looking, Taking, posted_batch};

use crate::announcement::Announcement;
use batches::sealed::SealedBatch;
use refusals::Refusal;
use std::alloc::{AllocError, Global};

// What carries batches and announcements between the rooms. Rooms are numbered 0 to 7, batches from 0 in the order of
// posting. A refused call leaves the wire as it was.
pub trait Wire {
    // what the wire holds
    ghost meaning: { Self → WireState };

    // the wire's own rule: of the wire before a call, what was chosen or wished for in it, and the wire after it
    ghost chooses: { Self → Choice → Self → Type 0 };

    // A new wire is empty. It takes here all the memory that it will ever need.
    fn open(heap: Global) -> Result<Self, AllocError>
    where
        Self: Sized,
        ensures { IfOk result (λ w. meaning w ≡ new_wire) };

    // A room posts a batch, which is used up either way. Answers the batch's number.
    fn post(&mut self, room: u8, batch: SealedBatch) -> Result<u16, Refusal>
        ensures cases { Posting (meaning self.old) (meaning self.new) room (batch_of batch) result }
        ensures same { OnErr result (self.new ≡ self.old) }
        ensures choice { chooses self.old nothing self.new };

    // Puts a posted batch at the end of the definitive list and answers it.
    fn number(&mut self) -> Result<u16, Refusal>
        ensures cases { Numbering (meaning self.old) (meaning self.new) result }
        ensures same { OnErr result (self.new ≡ self.old) }
        ensures choice { chooses self.old (numbering result) self.new };

    // Puts a posted batch at the end of a room's tentative list and answers it.
    fn tell_tentatively(&mut self, room: u8) -> Result<u16, Refusal>
        ensures cases { Hearing (meaning self.old) (meaning self.new) room result }
        ensures same { OnErr result (self.new ≡ self.old) }
        ensures choice { chooses self.old (telling room result) self.new };

    // Answers a room's next definitive entry and counts it as taken.
    fn tell_definitively(&mut self, room: u8) -> Result<u16, Refusal>
        ensures cases { Telling (meaning self.old) (meaning self.new) room result }
        ensures same { OnErr result (self.new ≡ self.old) }
        ensures choice { chooses self.old nothing self.new };

    // Puts an announcement at the end of its sender's.
    fn announce(&mut self, sender: u8, announcement: Announcement) -> Result<(), Refusal>
        ensures cases { Announcing (meaning self.old) (meaning self.new) sender announcement result }
        ensures same { OnErr result (self.new ≡ self.old) }
        ensures choice { chooses self.old nothing self.new };

    // A sender's next announcement for a room, which stays there. Room and sender stand apart, here and in a wire: a caller is
    // the one, and names the other.
    fn next_announcement(&self, room: u8, sender: u8) -> Result<Announcement, Refusal>
        ensures cases { Looking (meaning self.now) room sender result };

    // Counts a sender's next announcement as taken by a room.
    fn take_announcement(&mut self, room: u8, sender: u8) -> Result<(), Refusal>
        ensures cases { Taking (meaning self.old) (meaning self.new) room sender result }
        ensures same { OnErr result (self.new ≡ self.old) }
        ensures choice { chooses self.old nothing self.new };

    // Names a batch that the caller would like to be chosen next. A wire may pass over it.
    fn wish(&mut self, batch: u16)
        ensures same { meaning self.new ≡ meaning self.old }
        ensures choice { chooses self.old (wished batch) self.new };

    // The posted batch of a number, if there is one.
    fn batch(&self, number: u16) -> Option<&SealedBatch>
        ensures { option_map (λ (b : Bor Sealed). batch_of b.now) result ≡ posted_batch (meaning self.now) number };

    // How many batches are posted.
    fn posted(&self) -> u16
        ensures { result ≡ length (meaning self.now).posts };

    // no list holds a batch twice, and only posted ones
    ghost sound: { (w : Self) → Sound (meaning w) };

    // a wire that stays as it is keeps to its rule
    ghost idle: { (w : Self) → chooses w nothing w };
}
