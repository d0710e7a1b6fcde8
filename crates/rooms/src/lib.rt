// Rooms: a room's lists and records, and its calls over any wire and any book.
#![tactic(auto)]

mod batch_list;
mod batch_list_calls;
mod hear;
mod install;
mod limits;
mod lines;
pub mod memory;
mod next;
pub mod opening;
mod pick;
mod questions;
pub mod record;
mod release;
pub mod room;
mod run;
mod running;
mod settle;
mod settling;
mod works;
mod works_calls;
mod writing;

pub use memory::RoomMemory;
pub use opening::Unopened;
pub use record::Record;
pub use room::Room;
