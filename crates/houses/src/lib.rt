// Houses over the three wires, with books of both kinds: lists of calls performed on a house of any policy, and a house that is
// opened over a wire of any kind.
#![tactic(auto)]

mod calling;
pub mod memory;
pub mod open_house;
pub mod opening;
mod performing;
mod reserving;

pub use memory::OpeningMemory;
pub use open_house::OpenHouse;
pub use opening::NotOpened;
pub use performing::perform_by;
