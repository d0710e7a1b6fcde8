// The house: one to eight rooms over any wire and any books, and its calls.
#![tactic(auto)]

mod books;
pub mod call;
mod calling;
pub mod closed;
pub mod house;
pub mod memory;
mod open;
mod parts;
pub mod performance;
mod performing;
mod questions;
mod room_calls;
mod room_places;
pub mod unopened;
mod wire_calls;

pub use call::{Answer, Call};
pub use closed::Closed;
pub use house::House;
pub use memory::HouseMemory;
pub use performance::{Performance, Unperformed, WhyUnperformed};
pub use performing::perform;
pub use unopened::{Unopened, WhyUnopened};
