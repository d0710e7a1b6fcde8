// The memory of a sheet's house, taken before the house is opened.
ghost use Rattle.std.specs.Prelude.{◌≡◌};
ghost use Rattle.wire.specs.Wire.{new_wire};
ghost use Rattle.houses.specs.Meanings.{wire_meaning};

use house::HouseMemory;
use openings::BooksMemory;
use wires::AnyWire;

// All the memory that a house will ever need: a new wire, the memory of its books, and that of its rooms.
#[derive(Drop)]
pub struct OpeningMemory {
    pub(crate) wire: AnyWire,
    pub(crate) books: BooksMemory,
    pub(crate) rooms: HouseMemory,
    ghost wire_new: { ∥ wire_meaning wire ≡ new_wire ∥₁ },
}
