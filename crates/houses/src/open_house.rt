// The house of a sheet, open.
ghost use Rattle.openings.specs.Amounts.{amounts_of};
ghost use Rattle.houses.specs.Led.{InUse};

use house::House;
use openings::Opening;
use stock::StockBook;
use wires::AnyWire;

// An open house: over any of the three wires, with books of both kinds. It keeps the amounts that it was opened with; since then
// it had calls of a house, and nothing else happened to it.
#[derive(Drop)]
pub struct OpenHouse {
    pub(crate) house: House<AnyWire, StockBook>,
    pub(crate) opening: Opening,
    ghost used: { InUse (amounts_of opening) house },
}
