// Sheets: one line in, one answer line out.
#![tactic(auto)]

mod acting;
mod answering;
pub mod draft;
mod drafting;
pub mod fault;
pub mod line_buffer;
pub mod line_reading;
pub mod open_house;
pub mod sheet;
pub mod stage;

pub use fault::{Fault, LineFault};
pub use line_buffer::LineBuffer;
pub use sheet::Sheet;
