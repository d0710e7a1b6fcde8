ghost use Rattle.std.specs.Prelude.{◌≡◌, ℕ, ◌<◌, true, false, length, IfOk, vec_len, OnErr};
ghost use Rattle.std.specs.Borrow.{Bor};
ghost use Rattle.std.specs.Bool.{then_some};
ghost use Rattle.std.specs.Option.{option_map};
ghost use Rattle.batches.specs.Sealed.{batch_of};
ghost use Rattle.batches.specs.declared.sealed.SealedBatch.{SealedBatch as Sealed};
ghost use Rattle.wire.specs.Wire.{new_wire};
ghost use Rattle.wire.specs.Calls.{Chosen, with_number, with_heard, with_announced, entry_waits, next_entry, announced_before, amounts_small, announcement_waits, next_announcement};
ghost use Rattle.wire.specs.Promises.{Posting, Telling, Announcing, Looking, Taking, posted_batch};
ghost use Rattle.wires.specs.Kept.{blank};
ghost use Rattle.wires.specs.Parts.{kept_of, kept_in};
ghost use Rattle.wires.specs.Meaning.{meaning_of};

use crate::batch_list::BatchList;
use crate::ledger::Ledger;
use crate::limits::{BATCHES, ROOMS};
use crate::page::Page;
use crate::post::Post;
use crate::room_number::RoomNumber;
use batches::sealed::SealedBatch;
use refusals::Refusal;
use std::alloc::{AllocError, Global};
use stock::limits::any_over_limit;
use wire::announcement::Announcement;

// Eight blank pages.
fn open_pages(heap: Global) -> Result<Vec<Page>, AllocError>
    ensures { IfOk result (λ pages. (vec_len pages ≡ 8) × (kept_in pages.items ≡ (λ _. blank))) }
{
    let mut pages = Vec::with_capacity(heap, ROOMS as usize)?;
    for _ in 0..ROOMS {
        pages.push_reserved(Page::open(heap)?);
    }
    Ok(pages)
}

impl Ledger {
    // An empty ledger, with all the memory that it will need.
    pub(crate) fn open(heap: Global) -> Result<Ledger, AllocError>
        ensures { IfOk result (λ l. meaning_of l ≡ new_wire) }
    {
        let posts = Vec::with_capacity(heap, BATCHES)?;
        let definitive = BatchList::open(heap)?;
        let pages = open_pages(heap)?;
        Ok(Ledger {
            posts,
            definitive,
            pages,
        })
    }

    // The page of a room.
    pub(crate) fn page(&self, room: RoomNumber) -> &Page
        ensures { kept_of result.now ≡ kept_in self.now.pages.items room.number }
    {
        &self.pages[room.number as usize]
    }

    // How many batches are posted.
    pub(crate) fn posted(&self) -> u16
        ensures { result ≡ length (meaning_of self.now).posts }
    {
        self.posts.len() as u16
    }

    // The posted batch of a number, if there is one.
    pub(crate) fn batch(&self, number: u16) -> Option<&SealedBatch>
        ensures { option_map (λ (b : Bor Sealed). batch_of b.now) result ≡ posted_batch (meaning_of self.now) number }
    {
        self.posts.get(number as usize).map(|post| &post.batch)
    }

    // A room posts a batch, which is used up either way. Answers the batch's number.
    pub(crate) fn post(&mut self, room: u8, batch: SealedBatch) -> Result<u16, Refusal>
        ensures cases { Posting (meaning_of self.old) (meaning_of self.new) room (batch_of batch) result }
        ensures same { OnErr result (self.new ≡ self.old) }
    {
        let room = RoomNumber::try_from(room)?;
        let number = self.posted();
        if number as usize >= BATCHES {
            return Err(Refusal::WireFull);
        }
        self.posts.push_reserved(Post {
            room,
            batch,
            announced: false,
        });
        Ok(number)
    }

    // Puts the chosen batch at the end of the definitive list.
    pub(crate) fn number(&mut self, batch: u16)
        requires { Chosen (meaning_of self.old) (meaning_of self.old).definitive batch }
        ensures { meaning_of self.new ≡ with_number (meaning_of self.old) batch }
    {
        self.definitive.append(batch);
    }

    // Puts the chosen batch at the end of a room's tentative list.
    pub(crate) fn tell(&mut self, room: RoomNumber, batch: u16)
        requires { Chosen (meaning_of self.old) ((meaning_of self.old).tentative room.number) batch }
        ensures { meaning_of self.new ≡ with_heard (meaning_of self.old) room.number batch }
    {
        self.pages[room.number as usize].tell(batch);
    }

    // The definitive entry that a room would be told next: there is one, and the room's tentative list holds it.
    fn next_entry(&self, room: RoomNumber) -> Option<u16>
        ensures { result ≡ then_some (entry_waits (meaning_of self.now) room.number) (next_entry (meaning_of self.now) room.number) }
    {
        let page = self.page(room);
        let entry = *self.definitive.numbers.get(page.taken)?;
        page.told.holds(entry as usize).then_some(entry)
    }

    // Answers a room's next definitive entry and counts it as taken.
    pub(crate) fn tell_definitively(&mut self, room: u8) -> Result<u16, Refusal>
        ensures cases { Telling (meaning_of self.old) (meaning_of self.new) room result }
        ensures same { OnErr result (self.new ≡ self.old) }
    {
        let room = RoomNumber::try_from(room)?;
        let entry = self.next_entry(room).ok_or(Refusal::NothingWaits)?;
        self.pages[room.number as usize].take_entry();
        Ok(entry)
    }

    // Puts an announcement at the end of its sender's.
    pub(crate) fn announce(&mut self, sender: u8, announcement: Announcement) -> Result<(), Refusal>
        ensures cases { Announcing (meaning_of self.old) (meaning_of self.new) sender announcement result }
        ensures same { OnErr result (self.new ≡ self.old) }
    {
        let sender = RoomNumber::try_from(sender)?;
        if announcement.batch >= self.posted() {
            return Err(Refusal::UnknownBatch);
        }
        if self.is_announced(announcement.batch) {
            return Err(Refusal::AlreadyInstalled);
        }
        if any_over_limit(&announcement.result.amounts) {
            return Err(Refusal::OverLimit);
        }
        self.write_announcement(sender, announcement);
        Ok(())
    }

    // Whether some room has announced a batch.
    fn is_announced(&self, batch: u16) -> bool
        requires { batch < length (meaning_of self.now).posts }
        ensures { result ≡ announced_before (meaning_of self.now) batch }
    {
        self.posts[batch as usize].announced
    }

    // Marks the batch as announced and puts the announcement on its sender's page.
    fn write_announcement(&mut self, sender: RoomNumber, announcement: Announcement)
        requires posted { announcement.batch < length (meaning_of self.old).posts }
        requires new { announced_before (meaning_of self.old) announcement.batch ≡ false }
        requires small { amounts_small announcement ≡ true }
        ensures { meaning_of self.new ≡ with_announced (meaning_of self.old) sender.number announcement }
    {
        self.posts[announcement.batch as usize].announced = true;
        self.pages[sender.number as usize].announce(announcement);
    }

    // A sender's announcement that a room would be handed next.
    fn waiting(&self, room: RoomNumber, sender: RoomNumber) -> Option<Announcement>
        ensures { result ≡ then_some (announcement_waits (meaning_of self.now) room.number sender.number) (next_announcement (meaning_of self.now) room.number sender.number) }
    {
        let received = self.page(room).received[sender.number as usize];
        self.page(sender).announced.get(received).copied()
    }

    // A sender's next announcement for a room, which stays there.
    pub(crate) fn next_announcement(&self, room: u8, sender: u8) -> Result<Announcement, Refusal>
        ensures { Looking (meaning_of self.now) room sender result }
    {
        let room = RoomNumber::try_from(room)?;
        let sender = RoomNumber::try_from(sender)?;
        self.waiting(room, sender).ok_or(Refusal::NothingWaits)
    }

    // Counts a sender's next announcement as taken by a room.
    pub(crate) fn take_announcement(&mut self, room: u8, sender: u8) -> Result<(), Refusal>
        ensures cases { Taking (meaning_of self.old) (meaning_of self.new) room sender result }
        ensures same { OnErr result (self.new ≡ self.old) }
    {
        let room = RoomNumber::try_from(room)?;
        let sender = RoomNumber::try_from(sender)?;
        self.waiting(room, sender).ok_or(Refusal::NothingWaits)?;
        self.pages[room.number as usize].receive(sender);
        Ok(())
    }
}
