// The questions to a house, which change nothing: amount and pick.
ghost use Rattle.std.specs.Prelude.{◌≡◌};
ghost use Rattle.agreement.specs.Calls.{amount, pick};
ghost use Rattle.house.specs.Views.{Calling, answered, as_amount, as_picked};

use crate::house::House;
use refusals::Refusal;
use stock::Book;
use wire::Wire;

impl<W: Wire, B: Book> House<W, B> {
    // The amount of a base in a room's book.
    pub fn amount(&self, room: u8, base: u8) -> Result<u32, Refusal>
        ensures steps { Calling W.Wire.meaning B.Book.holds self.now (amount room base) (answered as_amount result) self.now }
    {
        let place = self.place_of(room)?;
        self.books[place].amount(base)
    }

    // Some batch that a room would run; none exactly where it would run none.
    pub fn pick(&self, room: u8) -> Result<Option<u16>, Refusal>
        ensures steps { Calling W.Wire.meaning B.Book.holds self.now (pick room) (answered as_picked result) self.now }
    {
        let place = self.place_of(room)?;
        Ok(self.rooms[place].pick(&self.plan, &self.wire))
    }
}
