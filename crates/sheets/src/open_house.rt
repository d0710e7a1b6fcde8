// A house that is open.
ghost use Rattle.std.specs.Prelude.{◌≡◌, map};
ghost use Rattle.stock.specs.StockBook.{book_holds};
ghost use Rattle.sheets.specs.Steps.{amount_asked};

use plan::SealedPlan;
use refusals::Refusal;
use stock::{Book, StockBook};
use wires::WireKind;

// The plan of a house, the kind of its wire, and the book of each of its rooms.
#[derive(Drop)]
pub struct OpenHouse {
    pub plan: SealedPlan,
    pub wire: WireKind,
    pub books: Vec<StockBook>,
}

impl OpenHouse {
    // The amount of a base in a room's book; a room that has none is refused first.
    pub(crate) fn amount(&self, room: u8, base: u8) -> Result<u32, Refusal>
        ensures { result ≡ amount_asked (map book_holds self.now.books.items) room base }
    {
        let book = self.books.get(room as usize).ok_or(Refusal::OutOfRange)?;
        book.amount(base)
    }
}
