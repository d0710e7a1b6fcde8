ghost use Rattle.std.specs.Prelude.{◌≡◌, ℕ, List, length, IfOk, OnErr, refl};
ghost use Rattle.std.specs.Option.{option_map};
ghost use Rattle.batches.specs.Sealed.{batch_of};
ghost use Rattle.batches.specs.declared.sealed.SealedBatch.{SealedBatch as Sealed};
ghost use Rattle.wire.specs.Wire.{new_wire};
ghost use Rattle.wire.specs.Choices.{numbering, telling, wished, nothing};
ghost use Rattle.wire.specs.Promises.{Posting, Numbering, Hearing, Telling, Announcing, Looking, Taking, posted_batch};
ghost use Rattle.wires.specs.Meaning.{meaning_of};
ghost use Rattle.wires.specs.Orders.{poster, ByOrder};
ghost use Rattle.wires.specs.Rule.{GoesBy};
ghost use Rattle.wires.specs.Laws.{sound_of};

use crate::ledger::Ledger;
use crate::policy::Policy;
use crate::policy_wire::PolicyWire;
use crate::room_number::RoomNumber;
use batches::sealed::SealedBatch;
use refusals::Refusal;
use std::alloc::{AllocError, Global};
use wire::{Announcement, Wire};

// A wire over any policy is a wire. Its own rule is that it goes by its policy.
impl<P: Policy> Wire for PolicyWire<P> {
    ghost meaning = { λ w. meaning_of w.ledger };

    ghost chooses = { λ w choice v. GoesBy P.Policy (meaning_of w.ledger) w.policy choice v.policy };

    ghost sound = { λ w. sound_of w.ledger };

    ghost idle = { λ w. refl };

    fn open(heap: Global) -> Result<PolicyWire<P>, AllocError>
        ensures after { IfOk result (λ w. meaning_of w.ledger ≡ new_wire) }
        ensures policy { IfOk result (λ w. w.policy ≡ P.Policy.fresh) }
    {
        Ok(PolicyWire {
            ledger: Ledger::open(heap)?,
            policy: P::start(),
        })
    }

    fn post(&mut self, room: u8, batch: SealedBatch) -> Result<u16, Refusal>
        ensures cases { Posting (meaning_of self.old.ledger) (meaning_of self.new.ledger) room (batch_of batch) result }
        ensures same { OnErr result (self.new ≡ self.old) }
        ensures policy { self.new.policy ≡ self.old.policy }
        ensures choice { GoesBy P.Policy (meaning_of self.old.ledger) self.old.policy nothing self.new.policy }
    {
        self.ledger.post(room, batch)
    }

    fn number(&mut self) -> Result<u16, Refusal>
        ensures cases { Numbering (meaning_of self.old.ledger) (meaning_of self.new.ledger) result }
        ensures same { OnErr result (self.new ≡ self.old) }
        ensures policy { IfOk result (λ b. ByOrder (P.Policy.numbers self.old.policy (meaning_of self.old.ledger).posts (meaning_of self.old.ledger).definitive) b self.new.policy (P.Policy.served self.old.policy (poster (meaning_of self.old.ledger).posts b))) }
        ensures choice { GoesBy P.Policy (meaning_of self.old.ledger) self.old.policy (numbering result) self.new.policy }
    {
        let batch = self
            .ledger
            .choose_number(&self.policy)
            .ok_or(Refusal::NothingWaits)?;
        let room = self.ledger.poster(batch);
        self.ledger.number(batch);
        self.policy.note_numbered(room);
        Ok(batch)
    }

    fn tell_tentatively(&mut self, room: u8) -> Result<u16, Refusal>
        ensures cases { Hearing (meaning_of self.old.ledger) (meaning_of self.new.ledger) room result }
        ensures same { OnErr result (self.new ≡ self.old) }
        ensures policy { IfOk result (λ b. ByOrder (P.Policy.tells self.old.policy (meaning_of self.old.ledger).posts ((meaning_of self.old.ledger).tentative room) room) b self.new.policy (P.Policy.heard self.old.policy)) }
        ensures choice { GoesBy P.Policy (meaning_of self.old.ledger) self.old.policy (telling room result) self.new.policy }
    {
        let room = RoomNumber::try_from(room)?;
        let batch = self
            .ledger
            .choose_telling(&self.policy, room)
            .ok_or(Refusal::NothingWaits)?;
        self.ledger.tell(room, batch);
        self.policy.note_told();
        Ok(batch)
    }

    fn tell_definitively(&mut self, room: u8) -> Result<u16, Refusal>
        ensures cases { Telling (meaning_of self.old.ledger) (meaning_of self.new.ledger) room result }
        ensures same { OnErr result (self.new ≡ self.old) }
        ensures policy { self.new.policy ≡ self.old.policy }
        ensures choice { GoesBy P.Policy (meaning_of self.old.ledger) self.old.policy nothing self.new.policy }
    {
        self.ledger.tell_definitively(room)
    }

    fn announce(&mut self, sender: u8, announcement: Announcement) -> Result<(), Refusal>
        ensures cases { Announcing (meaning_of self.old.ledger) (meaning_of self.new.ledger) sender announcement result }
        ensures same { OnErr result (self.new ≡ self.old) }
        ensures policy { self.new.policy ≡ self.old.policy }
        ensures choice { GoesBy P.Policy (meaning_of self.old.ledger) self.old.policy nothing self.new.policy }
    {
        self.ledger.announce(sender, announcement)
    }

    fn next_announcement(&self, room: u8, sender: u8) -> Result<Announcement, Refusal> {
        self.ledger.next_announcement(room, sender)
    }

    fn take_announcement(&mut self, room: u8, sender: u8) -> Result<(), Refusal>
        ensures cases { Taking (meaning_of self.old.ledger) (meaning_of self.new.ledger) room sender result }
        ensures same { OnErr result (self.new ≡ self.old) }
        ensures policy { self.new.policy ≡ self.old.policy }
        ensures choice { GoesBy P.Policy (meaning_of self.old.ledger) self.old.policy nothing self.new.policy }
    {
        self.ledger.take_announcement(room, sender)
    }

    fn wish(&mut self, batch: u16)
        ensures same { meaning_of self.new.ledger ≡ meaning_of self.old.ledger }
        ensures policy { self.new.policy ≡ P.Policy.wished self.old.policy batch }
        ensures choice { GoesBy P.Policy (meaning_of self.old.ledger) self.old.policy (wished batch) self.new.policy }
    {
        self.policy.note_wish(batch);
    }

    fn batch(&self, number: u16) -> Option<&SealedBatch> {
        self.ledger.batch(number)
    }

    fn posted(&self) -> u16 {
        self.ledger.posted()
    }
}
