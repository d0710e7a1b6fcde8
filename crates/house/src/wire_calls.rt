// The calls of a house that its wire answers: post, number and wish.
ghost use Rattle.std.specs.Prelude.{◌≡◌, OnErr};
ghost use Rattle.batches.specs.Sealed.{batch_of};
ghost use Rattle.agreement.specs.Calls.{post, number, wish, done};
ghost use Rattle.house.specs.Choices.{choice_of};
ghost use Rattle.house.specs.Views.{Calling, answered, as_batch};

use crate::house::House;
use batches::SealedBatch;
use refusals::Refusal;
use stock::Book;
use wire::Wire;

impl<W: Wire, B: Book> House<W, B> {
    // A room posts a batch, which is used up either way. Answers the batch's number.
    pub fn post(&mut self, room: u8, batch: SealedBatch) -> Result<u16, Refusal>
        ensures steps { Calling W.Wire.meaning B.Book.holds self.old (post room (batch_of batch)) (answered as_batch result) self.new }
        ensures same { OnErr result (self.new ≡ self.old) }
        ensures choice { W.Wire.chooses self.old.wire (choice_of (post room (batch_of batch)) (answered as_batch result)) self.new.wire }
    {
        self.place_of(room)?;
        self.plan.master(batch.set()).ok_or(Refusal::SetUnplanned)?;
        self.wire.post(room, batch)
    }

    // Numbers a posted batch: it goes to the end of the definitive list, and is the answer.
    pub fn number(&mut self) -> Result<u16, Refusal>
        ensures steps { Calling W.Wire.meaning B.Book.holds self.old number (answered as_batch result) self.new }
        ensures same { OnErr result (self.new ≡ self.old) }
        ensures choice { W.Wire.chooses self.old.wire (choice_of number (answered as_batch result)) self.new.wire }
    {
        self.wire.number()
    }

    // Names a batch that the caller would like to be chosen next. The wire may pass over it.
    pub fn wish(&mut self, batch: u16)
        ensures steps { Calling W.Wire.meaning B.Book.holds self.old (wish batch) done self.new }
        ensures choice { W.Wire.chooses self.old.wire (choice_of (wish batch) done) self.new.wire }
    {
        self.wire.wish(batch);
    }
}
