// The calls of a house that a room answers: hear, settle, run, release and install.
ghost use Rattle.std.specs.Prelude.{◌≡◌, OnErr};
ghost use Rattle.agreement.specs.Calls.{hear, settle, run, release, install};
ghost use Rattle.house.specs.Choices.{choice_of};
ghost use Rattle.house.specs.Views.{Calling, answered, as_done, as_batch, as_settled, as_ran};

use crate::house::House;
use batches::Outcome;
use refusals::Refusal;
use stock::Book;
use wire::Wire;

impl<W: Wire, B: Book> House<W, B> {
    // A room hears its next tentative batch, which is the answer.
    pub fn hear(&mut self, room: u8) -> Result<u16, Refusal>
        ensures steps { Calling W.Wire.meaning B.Book.holds self.old (hear room) (answered as_batch result) self.new }
        ensures same { OnErr result (self.new ≡ self.old) }
        ensures choice { W.Wire.chooses self.old.wire (choice_of (hear room) (answered as_batch result)) self.new.wire }
    {
        let place = self.place_of(room)?;
        self.rooms[place].hear(&mut self.wire)
    }

    // A room settles its next definitive batch. Answers that batch, how many went ahead of it, and how many marks were thrown.
    pub fn settle(&mut self, room: u8) -> Result<(u16, u16, u16), Refusal>
        ensures steps { Calling W.Wire.meaning B.Book.holds self.old (settle room) (answered as_settled result) self.new }
        ensures same { OnErr result (self.new ≡ self.old) }
        ensures choice { W.Wire.chooses self.old.wire (choice_of (settle room) (answered as_settled result)) self.new.wire }
    {
        let place = self.place_of(room)?;
        self.rooms[place].settle(&self.plan, &mut self.wire)
    }

    // A room runs a batch, and marks it with the result. Answers the outcome, and the place of the step that failed, counted
    // from 1, or 0.
    pub fn run(&mut self, room: u8, batch: u16) -> Result<(Outcome, u8), Refusal>
        ensures steps { Calling W.Wire.meaning B.Book.holds self.old (run room batch) (answered as_ran result) self.new }
        ensures same { OnErr result (self.new ≡ self.old) }
        ensures choice { W.Wire.chooses self.old.wire (choice_of (run room batch) (answered as_ran result)) self.new.wire }
    {
        let place = self.place_of(room)?;
        self.rooms[place].run(&self.plan, &self.wire, &self.books[place], batch)
    }

    // A room releases a batch: announces its result, and writes it to its book.
    pub fn release(&mut self, room: u8, batch: u16) -> Result<(), Refusal>
        ensures steps { Calling W.Wire.meaning B.Book.holds self.old (release room batch) (answered as_done result) self.new }
        ensures same { OnErr result (self.new ≡ self.old) }
        ensures choice { W.Wire.chooses self.old.wire (choice_of (release room batch) (answered as_done result)) self.new.wire }
    {
        let place = self.place_of(room)?;
        self.rooms[place].release(&self.plan, &mut self.wire, &mut self.books[place], batch)
    }

    // A room installs a sender's next announcement, and writes it to its book. Answers the batch.
    pub fn install(&mut self, room: u8, sender: u8) -> Result<u16, Refusal>
        ensures steps { Calling W.Wire.meaning B.Book.holds self.old (install room sender) (answered as_batch result) self.new }
        ensures same { OnErr result (self.new ≡ self.old) }
        ensures choice { W.Wire.chooses self.old.wire (choice_of (install room sender) (answered as_batch result)) self.new.wire }
    {
        let place = self.place_of(room)?;
        self.rooms[place].install(&self.plan, &mut self.wire, &mut self.books[place], sender)
    }
}
