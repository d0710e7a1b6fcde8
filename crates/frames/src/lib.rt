// The text layer: one line of hexadecimal digits is one frame, or a fault with its place.
#![tactic(auto)]

mod digits;
pub mod frame;
pub mod kind;
pub mod laws;
pub mod reading;

pub use frame::{Frame, TextFault};
pub use kind::{FrameKind, UnknownKind};
pub use reading::read_frame;

#[cfg(test)]
mod tests;
