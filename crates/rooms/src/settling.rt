// The parts of a settle: what it does to the lists, and to the table of records.
ghost use Rattle.std.specs.Prelude.{◌≡◌, ℕ, ◌+◌, ◌<◌, ◌≤◌, true, not, ◌&&◌, [], ◌∷◌, ◌++◌, length, if◌then◌else◌, None, slice_index_or};
ghost use Rattle.lists.specs.Words.{all, keep, member};
ghost use Rattle.order.specs.Works.{share};
ghost use Rattle.rooms.specs.Lists.{numbers_of};
ghost use Rattle.rooms.specs.Records.{blank, known};
ghost use Rattle.rooms.specs.Settles.{goes_ahead, ahead_of, would_lose, unmarked};
ghost use Rattle.rooms.specs.Views.{works_in};

use crate::batch_list::BatchList;
use crate::batch_list_calls::holds;
use crate::next::Next;
use crate::record::Record;
use sets::{lies_within, shares_base};
use wire::Wire;

impl<W: Wire> Next<'_, W> {
    // Moves the batches that go ahead of this one, and then this one, from the waiting list to the end of the settled list.
    // Answers how many went ahead.
    pub(crate) fn move_on(&self, waiting: &mut BatchList, settled: &mut BatchList) -> u16
        requires there { member self.now.batch (numbers_of waiting.old) ≡ true }
        requires few { length (numbers_of waiting.old) + length (numbers_of settled.old) ≤ 256 }
        ensures value { result ≡ length (ahead_of (works_in self.now.works.now) self.now.room (numbers_of waiting.old) self.now.batch) }
        ensures settled { numbers_of settled.new ≡ numbers_of settled.old ++ (ahead_of (works_in self.now.works.now) self.now.room (numbers_of waiting.old) self.now.batch ++ self.now.batch ∷ []) }
        ensures waiting { numbers_of waiting.new ≡ keep (λ b. not (member b (ahead_of (works_in self.now.works.now) self.now.room (numbers_of waiting.old) self.now.batch ++ self.now.batch ∷ []))) (numbers_of waiting.old) }
        ensures few { length (numbers_of waiting.new) + length (numbers_of settled.new) ≤ length (numbers_of waiting.old) + length (numbers_of settled.old) }
    {
        let before = settled.len();
        let ahead = self.send_ahead(waiting, settled);
        settled.append(self.batch);
        waiting.take_out_all(&settled.as_slice()[before..]);
        ahead
    }

    // Puts all batches that go ahead of this one at the end of the settled list, in their order. Answers how many.
    fn send_ahead(&self, waiting: &BatchList, settled: &mut BatchList) -> u16
        requires { length (numbers_of waiting.now) + length (numbers_of settled.old) ≤ 256 }
        ensures after { numbers_of settled.new ≡ numbers_of settled.old ++ ahead_of (works_in self.now.works.now) self.now.room (numbers_of waiting.now) self.now.batch }
        ensures value { result ≡ length (ahead_of (works_in self.now.works.now) self.now.room (numbers_of waiting.now) self.now.batch) }
    {
        if self.works.master_of(self.batch) != self.room {
            return 0;
        }
        let mut ahead = 0;
        for batch in waiting.as_slice() {
            if self.is_ahead(waiting, *batch) {
                settled.append(*batch);
                ahead += 1;
            }
        }
        ahead
    }

    // Whether a batch goes ahead of this one, of which the room is the master: the room is its master too, it lies within this
    // one's set, and it stands before it in the waiting list.
    fn is_ahead(&self, waiting: &BatchList, batch: u16) -> bool
        ensures { result ≡ goes_ahead (works_in self.now.works.now) self.now.room (numbers_of waiting.now) self.now.batch batch }
    {
        self.works.master_of(batch) == self.room
            && lies_within(self.works.set_of(batch), self.works.set_of(self.batch))
            && waiting.has_before(batch, self.batch)
    }

    // Makes this batch the serializer of some batches.
    pub(crate) fn name_serializer(&self, records: &mut [Record], batches: &[u16])
        requires table { length records.old ≡ 256 }
        requires known { all known batches.now ≡ true }
        ensures names { (a : ℕ) → (slice_index_or records.new a blank).serializer ≡ (if member a batches.now then self.now.batch else (slice_index_or records.old a blank).serializer) }
        ensures marks { (a : ℕ) → (slice_index_or records.new a blank).mark ≡ (slice_index_or records.old a blank).mark }
    {
        for batch in batches {
            records[*batch as usize].serializer = self.batch;
        }
    }

    // Takes the marks off the waiting batches that have a base in common with this one, and answers how many. A rule of the
    // project: a loop over the elements of the waiting part takes them off, and counts.
    pub(crate) fn throw_marks(&self, records: &mut [Record], waiting: &[u16]) -> u16
        requires table { length records.old ≡ 256 }
        requires known { all known waiting.now ≡ true }
        requires few { length waiting.now ≤ 256 }
        ensures value { result ≡ length (keep (would_lose (works_in self.now.works.now) records.old self.now.batch) waiting.now) }
        ensures marks { (a : ℕ) → (slice_index_or records.new a blank).mark ≡ (if member a (keep (would_lose (works_in self.now.works.now) records.old self.now.batch) waiting.now) then None else (slice_index_or records.old a blank).mark) }
        ensures names { (a : ℕ) → (slice_index_or records.new a blank).serializer ≡ (slice_index_or records.old a blank).serializer }
    {
        let mut thrown = 0;
        for (at, batch) in waiting.iter().enumerate() {
            if self.throw_one(records, &waiting[at + 1..], *batch) {
                thrown += 1;
            }
        }
        thrown
    }

    // Takes the mark off a batch that would lose one, and tells whether it would. A batch that is to come once more in the rest
    // of the list keeps it until then.
    fn throw_one(&self, records: &mut [Record], rest: &[u16], batch: u16) -> bool
        requires { batch < length records.old }
        ensures value { result ≡ would_lose (works_in self.now.works.now) records.old self.now.batch batch }
        ensures after { records.new ≡ (if would_lose (works_in self.now.works.now) records.old self.now.batch batch && not (member batch rest.now) then unmarked records.old batch else records.old) }
    {
        let loses = self.would_lose(records, batch);
        if loses && !holds(rest, batch) {
            records[batch as usize].mark = None;
        }
        loses
    }

    // Whether a batch bears a mark and has a base in common with this one.
    fn would_lose(&self, records: &[Record], batch: u16) -> bool
        requires { batch < length records.now }
        ensures { result ≡ would_lose (works_in self.now.works.now) records.now self.now.batch batch }
    {
        shares_base(self.works.set_of(batch), self.works.set_of(self.batch))
            && records[batch as usize].mark.is_some()
    }
}
